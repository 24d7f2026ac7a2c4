//! Expressions.
#![tactic(auto, using(crate::proofs::Visits::visited_append))]

ghost use Rattle.std.specs.Prelude.{◌≡◌, false, OnOk};
ghost use Rattle.dart_sites.specs.declared.sites.Use.TheVariants as u;
ghost use Rattle.dart_sites.specs.declared.sites.Site.TheVariants as x;
ghost use Rattle.dart_sites.specs.Expressions as spec;
ghost use Rattle.dart_sites.specs.Sites.{here, both};
ghost use Rattle.dart_sites.specs.Trees.{expr_in, chain_in, target_in};
ghost use Rattle.dart_sites.specs.Walks.{Walks, past};

use crate::asked::{assignment_method, assignment_use, expr_is_super, method_of, step_method};
use crate::lent::LentSlice;
use crate::place::Place;
use crate::sites::{Site, Use};
use crate::tour::Tour;
use crate::visitor::Visitor;
use crate::walker::Walker;
use dart_grammar::trees::{
    Assignment, Chain, Expr, Name, Operator, PrefixOperator, Span, Step, Stmt, Target,
};
use std::alloc::AllocError;

impl<
    V: Visitor,
    E: for<'a> Fn(usize, &mut Tour<'a, V>, &Place<'_, 'a>, &'a Expr) -> Result<(), AllocError>,
    S: for<'a> Fn(usize, &mut Tour<'a, V>, &Place<'_, 'a>, &'a Stmt) -> Result<(), AllocError>,
> Walker<V, E, S> {
    fn read<'a>(
        &self,
        tour: &mut Tour<'a, V>,
        place: &Place<'_, 'a>,
        chain: &'a Chain,
    ) -> Result<(), AllocError>
        requires { Walks V.step self.now.depth (E.pre self.now.expr) (E.post self.now.expr) (S.pre self.now.stmt) (S.post self.now.stmt) }
        ensures sites { OnOk result (tour.new.visitor ≡ past V.step ((chain_in chain.now).sites u.Read) place.now tour.old) }
        ensures scopes { OnOk result (tour.new.scopes ≡ tour.old.scopes) }
    {
        self.chain(tour, place, chain, Use::Read)?;
        Ok(())
    }

    fn stepped<'a>(
        &self,
        tour: &mut Tour<'a, V>,
        place: &Place<'_, 'a>,
        span: Span,
        step: Step,
        target: &'a Target,
    ) -> Result<(), AllocError>
        requires { Walks V.step self.now.depth (E.pre self.now.expr) (E.post self.now.expr) (S.pre self.now.stmt) (S.post self.now.stmt) }
        ensures sites { OnOk result (tour.new.visitor ≡ past V.step (both (here (x.Operated span (spec.step_method step) false)) (target_in target.now u.Changed)) place.now tour.old) }
        ensures scopes { OnOk result (tour.new.scopes ≡ tour.old.scopes) }
    {
        tour.visit(place, &Site::Operated(span, step_method(step), false))?;
        self.target(tour, place, target, Use::Changed)
    }

    fn negated<'a>(
        &self,
        tour: &mut Tour<'a, V>,
        place: &Place<'_, 'a>,
        span: Span,
        operand: &'a Expr,
    ) -> Result<(), AllocError>
        requires { Walks V.step self.now.depth (E.pre self.now.expr) (E.post self.now.expr) (S.pre self.now.stmt) (S.post self.now.stmt) }
        ensures sites { OnOk result (tour.new.visitor ≡ past V.step (both (here (x.Negated span)) (expr_in operand.now).sites) place.now tour.old) }
        ensures scopes { OnOk result (tour.new.scopes ≡ tour.old.scopes) }
    {
        tour.visit(place, &Site::Negated(span))?;
        self.expr(tour, place, operand)
    }

    fn operated<'a>(
        &self,
        tour: &mut Tour<'a, V>,
        place: &Place<'_, 'a>,
        span: Span,
        operator: Operator,
        left: &'a Expr,
        right: &'a Expr,
    ) -> Result<(), AllocError>
        requires { Walks V.step self.now.depth (E.pre self.now.expr) (E.post self.now.expr) (S.pre self.now.stmt) (S.post self.now.stmt) }
        ensures sites { OnOk result (tour.new.visitor ≡ past V.step (both (spec.operated span (expr_in left.now).is_super (spec.method_of operator)) (both (expr_in left.now).sites (expr_in right.now).sites)) place.now tour.old) }
        ensures scopes { OnOk result (tour.new.scopes ≡ tour.old.scopes) }
    {
        tour.operated(place, span, expr_is_super(left), method_of(operator))?;
        self.expr(tour, place, left)?;
        self.expr(tour, place, right)
    }

    fn tested<'a>(
        &self,
        tour: &mut Tour<'a, V>,
        place: &Place<'_, 'a>,
        operand: &'a Expr,
        names: &'a [Name],
    ) -> Result<(), AllocError>
        requires { Walks V.step self.now.depth (E.pre self.now.expr) (E.post self.now.expr) (S.pre self.now.stmt) (S.post self.now.stmt) }
        ensures sites { OnOk result (tour.new.visitor ≡ past V.step (both (expr_in operand.now).sites (here (x.TypeTested names.now))) place.now tour.old) }
        ensures scopes { OnOk result (tour.new.scopes ≡ tour.old.scopes) }
    {
        self.expr(tour, place, operand)?;
        tour.visit(place, &Site::TypeTested(LentSlice::new(names)))
    }

    fn conditional<'a>(
        &self,
        tour: &mut Tour<'a, V>,
        place: &Place<'_, 'a>,
        test: &'a Expr,
        holds: &'a Expr,
        fails: &'a Expr,
    ) -> Result<(), AllocError>
        requires { Walks V.step self.now.depth (E.pre self.now.expr) (E.post self.now.expr) (S.pre self.now.stmt) (S.post self.now.stmt) }
        ensures sites { OnOk result (tour.new.visitor ≡ past V.step (both (expr_in test.now).sites (both (expr_in holds.now).sites (expr_in fails.now).sites)) place.now tour.old) }
        ensures scopes { OnOk result (tour.new.scopes ≡ tour.old.scopes) }
    {
        self.expr(tour, place, test)?;
        self.expr(tour, place, holds)?;
        self.expr(tour, place, fails)
    }

    fn assigned<'a>(
        &self,
        tour: &mut Tour<'a, V>,
        place: &Place<'_, 'a>,
        span: Span,
        target: &'a Target,
        assignment: Assignment,
        value: &'a Expr,
    ) -> Result<(), AllocError>
        requires { Walks V.step self.now.depth (E.pre self.now.expr) (E.post self.now.expr) (S.pre self.now.stmt) (S.post self.now.stmt) }
        ensures sites { OnOk result (tour.new.visitor ≡ past V.step (both (spec.operated span false (spec.assignment_method assignment)) (both (target_in target.now (spec.assignment_use assignment)) (expr_in value.now).sites)) place.now tour.old) }
        ensures scopes { OnOk result (tour.new.scopes ≡ tour.old.scopes) }
    {
        tour.operated(place, span, false, assignment_method(assignment))?;
        self.target(tour, place, target, assignment_use(assignment))?;
        self.expr(tour, place, value)
    }

    /// What stands in an expression.
    pub fn expr_form<'a>(
        &self,
        tour: &mut Tour<'a, V>,
        place: &Place<'_, 'a>,
        expr: &'a Expr,
    ) -> Result<(), AllocError>
        requires { Walks V.step self.now.depth (E.pre self.now.expr) (E.post self.now.expr) (S.pre self.now.stmt) (S.post self.now.stmt) }
        ensures sites { OnOk result (tour.new.visitor ≡ past V.step ((expr_in expr.now).sites) place.now tour.old) }
        ensures scopes { OnOk result (tour.new.scopes ≡ tour.old.scopes) }
    {
        match expr {
            Expr::Chained(chain) => self.read(tour, place, chain.get()),
            Expr::StepBefore(span, step, target) => self.stepped(
                tour,
                place,
                *span,
                *step,
                target.get(),
            ),
            Expr::StepBehind(span, step, target) => self.stepped(
                tour,
                place,
                *span,
                *step,
                target.get(),
            ),
            Expr::Prefixed(span, PrefixOperator::Negate, operand) => self.negated(
                tour,
                place,
                *span,
                operand.get(),
            ),
            Expr::Prefixed(_, PrefixOperator::Not, operand) => self.expr(
                tour,
                place,
                operand.get(),
            ),
            Expr::Operated(span, operator, left, right) => self.operated(
                tour,
                place,
                *span,
                *operator,
                left.get(),
                right.get(),
            ),
            Expr::Is(_, operand, names) => self.tested(
                tour,
                place,
                operand.get(),
                names.as_slice(),
            ),
            Expr::IsNot(_, operand, names) => self.tested(
                tour,
                place,
                operand.get(),
                names.as_slice(),
            ),
            Expr::As(_, operand, names) => self.tested(
                tour,
                place,
                operand.get(),
                names.as_slice(),
            ),
            Expr::Conditional(_, test, holds, fails) => self.conditional(
                tour,
                place,
                test.get(),
                holds.get(),
                fails.get(),
            ),
            Expr::Assigned(span, target, assignment, value) => self.assigned(
                tour,
                place,
                *span,
                target.get(),
                *assignment,
                value.get(),
            ),
            Expr::Throw(_, value) => self.expr(tour, place, value.get()),
        }
    }
}
