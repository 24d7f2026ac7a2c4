//! The parsers of what nests, each by the rules in which it stands.
ghost use Rattle.expr_parser.specs.Cursor.{Gives};
ghost use Rattle.expr_parser.specs.Knot as spec;

use crate::fault::Fault;
use crate::grammar::Grammar;
use dart_grammar::trees::{Expr, Parameters, Stmt};
use dart_syntax::Token;
use sqlite_items::Boxed;
use std::alloc::Global;

/// An expression whose parts nest no deeper than `depth`, up to the one end that no joining token follows.
#[cycle(parser)]
#[tactic(auto, using(crate::proofs::Turns::one_up), unfolding(crate::specs::Knot::inner_at))]
pub fn expr(alloc: Global, ts: &[Token], depth: usize) -> Result<(Boxed<Expr>, &[Token]), Fault>
    ensures { Gives (λ x. (x.0, x.1.now)) result (spec.expr_at depth ts.now) }
{
    if depth == 0 {
        return Err(Fault::NotDerived);
    }
    Grammar {
        alloc,
        depth: depth - 1,
        expr,
        stmt,
        parameters,
    }
    .ended(ts)
}

/// A statement whose parts nest no deeper than `depth`.
#[cycle(parser)]
#[tactic(auto, using(crate::proofs::Turns::one_up), unfolding(crate::specs::Knot::inner_at))]
pub fn stmt(alloc: Global, ts: &[Token], depth: usize) -> Result<(Boxed<Stmt>, &[Token]), Fault>
    ensures { Gives (λ x. (x.0, x.1.now)) result (spec.stmt_at depth ts.now) }
{
    if depth == 0 {
        return Err(Fault::NotDerived);
    }
    Grammar {
        alloc,
        depth: depth - 1,
        expr,
        stmt,
        parameters,
    }
    .statement(ts)
}

/// Parameters whose parts nest no deeper than `depth`.
#[cycle(parser)]
#[tactic(auto, using(crate::proofs::Turns::one_up), unfolding(crate::specs::Knot::inner_at))]
pub fn parameters(
    alloc: Global,
    ts: &[Token],
    depth: usize,
) -> Result<(Parameters, &[Token]), Fault>
    ensures { Gives (λ x. (x.0, x.1.now)) result (spec.parameters_at depth ts.now) }
{
    if depth == 0 {
        return Err(Fault::NotDerived);
    }
    Grammar {
        alloc,
        depth: depth - 1,
        expr,
        stmt,
        parameters,
    }
    .all_parameters(ts)
}
