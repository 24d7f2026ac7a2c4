//! The rules that nest, as they are handed to one another.
ghost use Rattle.std.specs.Prelude.{Some, List};
ghost use Rattle.expr_parser.specs.Cursor.{Gives};
ghost use Rattle.expr_parser.specs.Knot as spec;
ghost use Rattle.expr_parser.specs.Nests.{Nests};

use crate::fault::Fault;
use dart_grammar::trees::{Expr, Parameters, Stmt};
use dart_syntax::Token;
use sqlite_items::Boxed;
use std::alloc::Global;

/// The tree in a box, and the tokens behind it.
pub fn boxed<T: Drop>(alloc: Global, tree: T, rest: &[Token]) -> Result<(Boxed<T>, &[Token]), Fault>
    ensures { Gives {Y = T × List Token} (λ x. (x.0, x.1.now)) result (Some (tree, rest.now)) }
{
    Ok((Boxed::new(alloc, tree)?, rest))
}

/// The parsers of what nests, and how deep it may nest. The rules are methods, so that each is proved by itself.
#[derive(Clone, Copy)]
pub struct Grammar<E, S, P> {
    pub alloc: Global,
    pub depth: usize,
    pub expr: E,
    pub stmt: S,
    pub parameters: P,
}

impl<
    E: Fn(Global, &[Token], usize) -> Result<(Boxed<Expr>, &[Token]), Fault>,
    S: Fn(Global, &[Token], usize) -> Result<(Boxed<Stmt>, &[Token]), Fault>,
    P: Fn(Global, &[Token], usize) -> Result<(Parameters, &[Token]), Fault>,
> Grammar<E, S, P> {
    /// An expression that nests.
    pub fn expr<'t>(&self, ts: &'t [Token]) -> Result<(Boxed<Expr>, &'t [Token]), Fault>
        requires { Nests self.now.depth (E.pre self.now.expr) (E.post self.now.expr) (S.pre self.now.stmt) (S.post self.now.stmt) (P.pre self.now.parameters) (P.post self.now.parameters) }
        ensures { Gives (λ x. (x.0, x.1.now)) result (spec.expr_at self.now.depth ts.now) }
    {
        (self.expr)(self.alloc, ts, self.depth)
    }

    /// A statement that nests.
    pub fn stmt<'t>(&self, ts: &'t [Token]) -> Result<(Boxed<Stmt>, &'t [Token]), Fault>
        requires { Nests self.now.depth (E.pre self.now.expr) (E.post self.now.expr) (S.pre self.now.stmt) (S.post self.now.stmt) (P.pre self.now.parameters) (P.post self.now.parameters) }
        ensures { Gives (λ x. (x.0, x.1.now)) result (spec.stmt_at self.now.depth ts.now) }
    {
        (self.stmt)(self.alloc, ts, self.depth)
    }

    /// Parameters that nest.
    pub fn parameters<'t>(&self, ts: &'t [Token]) -> Result<(Parameters, &'t [Token]), Fault>
        requires { Nests self.now.depth (E.pre self.now.expr) (E.post self.now.expr) (S.pre self.now.stmt) (S.post self.now.stmt) (P.pre self.now.parameters) (P.post self.now.parameters) }
        ensures { Gives (λ x. (x.0, x.1.now)) result (spec.parameters_at self.now.depth ts.now) }
    {
        (self.parameters)(self.alloc, ts, self.depth)
    }
}
