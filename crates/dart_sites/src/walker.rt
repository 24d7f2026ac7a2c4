//! The parts of a walk that nest, as they are handed to one another.
ghost use Rattle.std.specs.Prelude.{◌≡◌, OnOk};
ghost use Rattle.dart_sites.specs.Trees.{expr_in, stmt_in};
ghost use Rattle.dart_sites.specs.Walks.{Walks, past};

use crate::place::Place;
use crate::tour::Tour;
use crate::visitor::Visitor;
use dart_grammar::trees::{Expr, Stmt};
use std::alloc::AllocError;
use std::marker::PhantomData;

/// Functions that walk what nests, and how deep it may nest. The forms are methods, so that each is proved by itself.
#[derive(Clone, Copy)]
pub struct Walker<V, E, S> {
    pub depth: usize,
    pub expr: E,
    pub stmt: S,
    pub visitor: PhantomData<V>,
}

impl<
    V: Visitor,
    E: for<'a> Fn(usize, &mut Tour<'a, V>, &Place<'_, 'a>, &'a Expr) -> Result<(), AllocError>,
    S: for<'a> Fn(usize, &mut Tour<'a, V>, &Place<'_, 'a>, &'a Stmt) -> Result<(), AllocError>,
> Walker<V, E, S> {
    /// An expression that nests.
    pub fn expr<'a>(
        &self,
        tour: &mut Tour<'a, V>,
        place: &Place<'_, 'a>,
        expr: &'a Expr,
    ) -> Result<(), AllocError>
        requires { Walks V.step self.now.depth (E.pre self.now.expr) (E.post self.now.expr) (S.pre self.now.stmt) (S.post self.now.stmt) }
        ensures sites { OnOk result (tour.new.visitor ≡ past V.step (expr_in expr.now).sites place.now tour.old) }
        ensures scopes { OnOk result (tour.new.scopes ≡ tour.old.scopes) }
    {
        (self.expr)(self.depth, tour, place, expr)
    }

    /// A statement that nests.
    pub fn stmt<'a>(
        &self,
        tour: &mut Tour<'a, V>,
        place: &Place<'_, 'a>,
        stmt: &'a Stmt,
    ) -> Result<(), AllocError>
        requires { Walks V.step self.now.depth (E.pre self.now.expr) (E.post self.now.expr) (S.pre self.now.stmt) (S.post self.now.stmt) }
        ensures sites { OnOk result (tour.new.visitor ≡ past V.step (stmt_in stmt.now).sites place.now tour.old) }
        ensures scopes { OnOk result (tour.new.scopes ≡ tour.old.scopes) }
    {
        (self.stmt)(self.depth, tour, place, stmt)
    }
}
