//! The parts of expressions and statements of which declarations are made. `depth` bounds how deep what nests in them may
//! nest; as many as there are tokens are enough.
ghost use Rattle.expr_parser.specs.Blocks as blocks;
ghost use Rattle.expr_parser.specs.Cursor.{Gives};
ghost use Rattle.expr_parser.specs.Knot.{inner_at};
ghost use Rattle.expr_parser.specs.Lists as lists;
ghost use Rattle.expr_parser.specs.Parameters as spec;
ghost use Rattle.expr_parser.specs.Statements as statements;

use crate::fault::Fault;
use crate::grammar::Grammar;
use crate::knot::stmt;
pub use crate::knot::{expr, parameters};
pub use crate::texts::{piece, text_close};
use dart_grammar::trees::{Arguments, Parameter, Stmt, Variables};
use dart_syntax::Token;
use sqlite_items::Items;
use std::alloc::Global;

/// A block, and where it ends.
pub fn block(
    alloc: Global,
    ts: &[Token],
    depth: usize,
) -> Result<((Items<Stmt>, u32), &[Token]), Fault>
    ensures { Gives (λ x. ((x.0.0, x.0.1), x.1.now)) result (blocks.block (inner_at depth) ts.now) }
{
    Grammar {
        alloc,
        depth,
        expr,
        stmt,
        parameters,
    }
    .block(ts)
}

/// Arguments in their brackets.
pub fn arguments(alloc: Global, ts: &[Token], depth: usize) -> Result<(Arguments, &[Token]), Fault>
    ensures { Gives (λ x. (x.0, x.1.now)) result (lists.arguments (inner_at depth) ts.now) }
{
    Grammar {
        alloc,
        depth,
        expr,
        stmt,
        parameters,
    }
    .arguments(ts)
}

/// A parameter, with its metadata.
pub fn parameter(alloc: Global, ts: &[Token], depth: usize) -> Result<(Parameter, &[Token]), Fault>
    ensures { Gives (λ x. (x.0, x.1.now)) result (spec.parameter (inner_at depth) ts.now) }
{
    Grammar {
        alloc,
        depth,
        expr,
        stmt,
        parameters,
    }
    .parameter(ts)
}

/// Behind metadata, as often as it stands here.
pub fn past_metadata(alloc: Global, ts: &[Token], depth: usize) -> Result<&[Token], Fault>
    ensures { Gives (λ x. x.now) result (spec.past_metadata (inner_at depth) ts.now) }
{
    Grammar {
        alloc,
        depth,
        expr,
        stmt,
        parameters,
    }
    .past_metadata(ts)
}

/// Variables that are declared, and where the `;` ends.
pub fn variables(
    alloc: Global,
    ts: &[Token],
    depth: usize,
) -> Result<((Variables, u32), &[Token]), Fault>
    ensures { Gives (λ x. ((x.0.0, x.0.1), x.1.now)) result (statements.variables (inner_at depth) ts.now) }
{
    Grammar {
        alloc,
        depth,
        expr,
        stmt,
        parameters,
    }
    .variables(ts)
}
