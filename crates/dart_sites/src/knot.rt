//! The walks of what nests, to a depth that no memory holds.
ghost use Rattle.std.specs.Prelude.{◌≡◌, OnOk};
ghost use Rattle.dart_sites.specs.Trees.{expr_in, stmt_in};
ghost use Rattle.dart_sites.specs.Walks.{past};

use crate::place::Place;
use crate::tour::Tour;
use crate::visitor::Visitor;
use crate::walker::Walker;
use dart_grammar::trees::{Expr, Stmt};
use std::alloc::AllocError;
use std::marker::PhantomData;

/// What stands in an expression.
#[cycle(walk)]
pub fn expr_to<'a, V: Visitor>(
    depth: usize,
    tour: &mut Tour<'a, V>,
    place: &Place<'_, 'a>,
    expr: &'a Expr,
) -> Result<(), AllocError>
    ensures sites { OnOk result (tour.new.visitor ≡ past V.step (expr_in expr.now).sites place.now tour.old) }
    ensures scopes { OnOk result (tour.new.scopes ≡ tour.old.scopes) }
{
    if depth == 0 {
        return Err(AllocError);
    }
    let walker = Walker {
        depth: depth - 1,
        expr: expr_to,
        stmt: stmt_to,
        visitor: PhantomData,
    };
    walker.expr_form(tour, place, expr)
}

/// What stands in a statement.
#[cycle(walk)]
pub fn stmt_to<'a, V: Visitor>(
    depth: usize,
    tour: &mut Tour<'a, V>,
    place: &Place<'_, 'a>,
    stmt: &'a Stmt,
) -> Result<(), AllocError>
    ensures sites { OnOk result (tour.new.visitor ≡ past V.step (stmt_in stmt.now).sites place.now tour.old) }
    ensures scopes { OnOk result (tour.new.scopes ≡ tour.old.scopes) }
{
    if depth == 0 {
        return Err(AllocError);
    }
    let walker = Walker {
        depth: depth - 1,
        expr: expr_to,
        stmt: stmt_to,
        visitor: PhantomData,
    };
    walker.stmt_form(tour, place, stmt)
}
