//! Blocks, and what a function does.
ghost use Rattle.std.specs.Prelude.{length, []};
ghost use Rattle.expr_parser.specs.Blocks as spec;
ghost use Rattle.expr_parser.specs.Cursor.{Gives};
ghost use Rattle.expr_parser.specs.Knot.{inner_at};
ghost use Rattle.expr_parser.specs.Nests.{Nests};

use crate::cursor::sign_at;
use crate::fault::Fault;
use crate::grammar::Grammar;
use dart_grammar::marks::{behind, next_sign};
use dart_grammar::spans::span_of;
use dart_grammar::trees::{Body, Expr, Parameters, Stmt};
use dart_syntax::{Sign, Token};
use sqlite_items::{Boxed, Items};
use std::alloc::Global;

impl<
    E: Fn(Global, &[Token], usize) -> Result<(Boxed<Expr>, &[Token]), Fault>,
    S: Fn(Global, &[Token], usize) -> Result<(Boxed<Stmt>, &[Token]), Fault>,
    P: Fn(Global, &[Token], usize) -> Result<(Parameters, &[Token]), Fault>,
> Grammar<E, S, P> {
    // Statements up to a `}`.
    #[tactic(auto, using(crate::proofs::Turns::one_turn, crate::proofs::Turns::no_turn), unfolding(crate::specs::Blocks::stmts_from))]
    fn stmts<'t>(&self, ts: &'t [Token]) -> Result<(Items<Stmt>, &'t [Token]), Fault>
        requires { Nests self.now.depth (E.pre self.now.expr) (E.post self.now.expr) (S.pre self.now.stmt) (S.post self.now.stmt) (P.pre self.now.parameters) (P.post self.now.parameters) }
        ensures { Gives (λ x. (x.0, x.1.now)) result (spec.stmts_from (inner_at self.now.depth) (length ts.now) [] ts.now) }
    {
        let mut found = Items::new(self.alloc);
        let mut rest = ts;
        for _turn in 0..ts.len() {
            if next_sign(Sign::CloseBrace, rest) {
                return Ok((found, rest));
            }
            let (item, after) = self.stmt(rest)?;
            found.push(item.into_inner())?;
            rest = after;
        }
        Err(Fault::NotDerived)
    }

    /// A block, and where it ends.
    #[tactic(auto, unfolding(crate::specs::Blocks::block))]
    pub fn block<'t>(&self, ts: &'t [Token]) -> Result<((Items<Stmt>, u32), &'t [Token]), Fault>
        requires { Nests self.now.depth (E.pre self.now.expr) (E.post self.now.expr) (S.pre self.now.stmt) (S.post self.now.stmt) (P.pre self.now.parameters) (P.post self.now.parameters) }
        ensures { Gives (λ x. ((x.0.0, x.0.1), x.1.now)) result (spec.block (inner_at self.now.depth) ts.now) }
    {
        let (_, after) = sign_at(Sign::OpenBrace, ts)?;
        let (items, after) = self.stmts(after)?;
        let (close, rest) = sign_at(Sign::CloseBrace, after)?;
        Ok(((items, close.to), rest))
    }

    /// The body of a function literal, and where it ends.
    #[tactic(auto, unfolding(crate::specs::Blocks::literal_body))]
    pub fn literal_body<'t>(&self, ts: &'t [Token]) -> Result<((Body, u32), &'t [Token]), Fault>
        requires { Nests self.now.depth (E.pre self.now.expr) (E.post self.now.expr) (S.pre self.now.stmt) (S.post self.now.stmt) (P.pre self.now.parameters) (P.post self.now.parameters) }
        ensures { Gives (λ x. ((x.0.0, x.0.1), x.1.now)) result (spec.literal_body (inner_at self.now.depth) ts.now) }
    {
        if !next_sign(Sign::Arrow, ts) {
            let ((items, end), rest) = self.block(ts)?;
            return Ok(((Body::Block(items), end), rest));
        }
        let (value, rest) = self.expr(behind(ts))?;
        let end = span_of(value.get()).to;
        Ok(((Body::Gives(value), end), rest))
    }

    /// The body of a local function, and where it ends.
    #[tactic(auto, unfolding(crate::specs::Blocks::local_body))]
    pub fn local_body<'t>(&self, ts: &'t [Token]) -> Result<((Body, u32), &'t [Token]), Fault>
        requires { Nests self.now.depth (E.pre self.now.expr) (E.post self.now.expr) (S.pre self.now.stmt) (S.post self.now.stmt) (P.pre self.now.parameters) (P.post self.now.parameters) }
        ensures { Gives (λ x. ((x.0.0, x.0.1), x.1.now)) result (spec.local_body (inner_at self.now.depth) ts.now) }
    {
        if !next_sign(Sign::Arrow, ts) {
            let ((items, end), rest) = self.block(ts)?;
            return Ok(((Body::Block(items), end), rest));
        }
        let (value, after) = self.expr(behind(ts))?;
        let (close, rest) = sign_at(Sign::Semicolon, after)?;
        Ok(((Body::Gives(value), close.to), rest))
    }
}
