//! Expressions of a file.
ghost use Rattle.std.specs.Prelude.{◌≡◌, ◌≤◌, None, length, IfOk, IfErr};
ghost use Rattle.dart_grammar.specs.Loads.{first_overload};
ghost use Rattle.expr_parser.specs.Expressions.{IsExpressionAt, IsFaultOf};

use crate::fault::{Fault, SyntaxFault};
use crate::knot::expr;
use dart_grammar::Expr;
use dart_syntax::Tokens;
use std::alloc::Global;

/// The expression that the tokens spell from number `from` on, up to the one end that no joining token follows, and the
/// number of the first token behind it. The caller makes sure that no token is nested too deep. What begins anew behind a
/// `;` or a `}` may nest deeper in the tree, as deep as the machine's stack holds.
///
/// Errors: [`SyntaxFault::NotDerived`] where no expression stands there, at the place 0 so far; [`SyntaxFault::Memory`].
/// [`SyntaxFault::TooDeep`] never comes.
pub fn parse_expression(
    alloc: Global,
    tokens: &Tokens,
    from: u64,
) -> Result<(Expr, u64), SyntaxFault>
    requires within { from ≤ length tokens.now.items }
    requires shallow { first_overload tokens.now.items ≡ None }
    ensures found { IfOk result (λ x. IsExpressionAt tokens.now.items from x.0 x.1) }
    ensures fault { IfErr result (λ fault. IsFaultOf tokens.now.items from fault) }
{
    let all = tokens.items.as_slice();
    let rest = &all[from as usize..];
    match expr(alloc, rest, rest.len()) {
        Ok((tree, behind)) => Ok((tree.into_inner(), (all.len() - behind.len()) as u64)),
        Err(Fault::NotDerived) => Err(SyntaxFault::NotDerived { at: 0 }),
        Err(Fault::Memory) => Err(SyntaxFault::Memory),
    }
}
