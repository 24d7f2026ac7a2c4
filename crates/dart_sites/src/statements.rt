//! Statements.
#![tactic(auto, using(crate::proofs::Visits::visited_append, crate::proofs::Innermost::outer_push))]

ghost use Rattle.std.specs.Prelude.{◌≡◌, ◌∷◌, [], map, OnOk, IfOk};
ghost use Rattle.dart_sites.specs.declared.sites.Use.TheVariants as u;
ghost use Rattle.dart_sites.specs.declared.sites.Site.TheVariants as x;
ghost use Rattle.dart_sites.specs.Statements as spec;
ghost use Rattle.dart_sites.specs.Sites.{here, none, both, each, if_any};
ghost use Rattle.dart_sites.specs.Trees.{expr_in, stmt_in, catch_in, variable_in, variables_in};
ghost use Rattle.dart_sites.specs.Walks.{Walks, past};

use crate::lent::{Lent, LentSlice};
use crate::locals::{block_locals, push_name, push_stmt, push_variables};
use crate::place::Place;
use crate::scopes::{LocalKind, Locals, Scope, ScopeKind};
use crate::sites::{Site, Use};
use crate::tour::Tour;
use crate::visitor::Visitor;
use crate::walker::Walker;
use dart_grammar::trees::{Catch, Expr, Name, Names, Span, Stmt, Variable, Variables};
use sqlite_items::Boxed;
use std::alloc::{AllocError, Global};

fn caught_locals<'a>(alloc: Global, name: &'a Option<Name>) -> Result<Locals<'a>, AllocError>
    ensures { IfOk result (λ locals. locals ≡ spec.caught_locals name.now) }
{
    let mut locals = Locals::new(alloc);
    match name {
        Some(name) => push_name(&mut locals, LocalKind::Caught, false, name)?,
        None => (),
    }
    Ok(locals)
}

impl<
    V: Visitor,
    E: for<'a> Fn(usize, &mut Tour<'a, V>, &Place<'_, 'a>, &'a Expr) -> Result<(), AllocError>,
    S: for<'a> Fn(usize, &mut Tour<'a, V>, &Place<'_, 'a>, &'a Stmt) -> Result<(), AllocError>,
> Walker<V, E, S> {
    // ---- variables

    fn local_variable<'a>(
        &self,
        tour: &mut Tour<'a, V>,
        place: &Place<'_, 'a>,
        variable: &'a Variable,
    ) -> Result<(), AllocError>
        requires { Walks V.step self.now.depth (E.pre self.now.expr) (E.post self.now.expr) (S.pre self.now.stmt) (S.post self.now.stmt) }
        ensures sites { OnOk result (tour.new.visitor ≡ past V.step (both (here (x.Local (variable_in variable.now).name)) (variable_in variable.now).value) place.now tour.old) }
        ensures scopes { OnOk result (tour.new.scopes ≡ tour.old.scopes) }
    {
        match variable {
            Variable::Unset(name) => tour.visit(place, &Site::Local(Lent::new(name))),
            Variable::Initialised(name, value) => self.initialised(tour, place, name, value.get()),
        }
    }

    fn initialised<'a>(
        &self,
        tour: &mut Tour<'a, V>,
        place: &Place<'_, 'a>,
        name: &'a Name,
        value: &'a Expr,
    ) -> Result<(), AllocError>
        requires { Walks V.step self.now.depth (E.pre self.now.expr) (E.post self.now.expr) (S.pre self.now.stmt) (S.post self.now.stmt) }
        ensures sites { OnOk result (tour.new.visitor ≡ past V.step (both (here (x.Local name.now)) (expr_in value.now).sites) place.now tour.old) }
        ensures scopes { OnOk result (tour.new.scopes ≡ tour.old.scopes) }
    {
        tour.visit(place, &Site::Local(Lent::new(name)))?;
        self.expr(tour, place, value)
    }

    #[tactic(auto, using(crate::proofs::Visits::visited_append, crate::proofs::Parts::local_variables_of))]
    fn local_variables<'a>(
        &self,
        tour: &mut Tour<'a, V>,
        place: &Place<'_, 'a>,
        variables: &'a Variables,
    ) -> Result<(), AllocError>
        requires { Walks V.step self.now.depth (E.pre self.now.expr) (E.post self.now.expr) (S.pre self.now.stmt) (S.post self.now.stmt) }
        ensures sites { OnOk result (tour.new.visitor ≡ past V.step (spec.local_variables (variables_in variables.now)) place.now tour.old) }
        ensures scopes { OnOk result (tour.new.scopes ≡ tour.old.scopes) }
    {
        for variable in variables.items.as_slice() {
            self.local_variable(tour, place, variable)?;
        }
        Ok(())
    }

    // ---- blocks

    fn stmts<'a>(
        &self,
        tour: &mut Tour<'a, V>,
        place: &Place<'_, 'a>,
        stmts: &'a [Stmt],
    ) -> Result<(), AllocError>
        requires { Walks V.step self.now.depth (E.pre self.now.expr) (E.post self.now.expr) (S.pre self.now.stmt) (S.post self.now.stmt) }
        ensures sites { OnOk result (tour.new.visitor ≡ past V.step (each (λ y. y.sites) (map stmt_in stmts.now)) place.now tour.old) }
        ensures scopes { OnOk result (tour.new.scopes ≡ tour.old.scopes) }
    {
        for stmt in stmts {
            self.stmt(tour, place, stmt)?;
        }
        Ok(())
    }

    /// The statements of a block, in a scope of its own.
    pub fn block<'a>(
        &self,
        tour: &mut Tour<'a, V>,
        place: &Place<'_, 'a>,
        stmts: &'a [Stmt],
    ) -> Result<(), AllocError>
        requires { Walks V.step self.now.depth (E.pre self.now.expr) (E.post self.now.expr) (S.pre self.now.stmt) (S.post self.now.stmt) }
        ensures sites { OnOk result (tour.new.visitor ≡ past V.step (spec.block (map stmt_in stmts.now)) place.now tour.old) }
        ensures scopes { OnOk result (tour.new.scopes ≡ tour.old.scopes) }
    {
        let locals = block_locals(tour.scopes.alloc(), stmts)?;
        tour.scopes.push(Scope {
            kind: ScopeKind::Block,
            locals,
        })?;
        self.stmts(tour, place, stmts)?;
        tour.scopes.pop();
        Ok(())
    }

    fn alone<'a>(
        &self,
        tour: &mut Tour<'a, V>,
        place: &Place<'_, 'a>,
        stmt: &'a Stmt,
    ) -> Result<(), AllocError>
        requires { Walks V.step self.now.depth (E.pre self.now.expr) (E.post self.now.expr) (S.pre self.now.stmt) (S.post self.now.stmt) }
        ensures sites { OnOk result (tour.new.visitor ≡ past V.step (spec.alone (stmt_in stmt.now)) place.now tour.old) }
        ensures scopes { OnOk result (tour.new.scopes ≡ tour.old.scopes) }
    {
        let mut locals = Locals::new(tour.scopes.alloc());
        push_stmt(&mut locals, stmt)?;
        tour.scopes.push(Scope {
            kind: ScopeKind::Block,
            locals,
        })?;
        self.stmt(tour, place, stmt)?;
        tour.scopes.pop();
        Ok(())
    }

    fn turn<'a>(
        &self,
        tour: &mut Tour<'a, V>,
        place: &Place<'_, 'a>,
        body: &'a Stmt,
    ) -> Result<(), AllocError>
        requires { Walks V.step self.now.depth (E.pre self.now.expr) (E.post self.now.expr) (S.pre self.now.stmt) (S.post self.now.stmt) }
        ensures sites { OnOk result (tour.new.visitor ≡ past V.step (spec.turn (stmt_in body.now)) place.now tour.old) }
        ensures scopes { OnOk result (tour.new.scopes ≡ tour.old.scopes) }
    {
        self.alone(tour, &place.looped(), body)
    }

    // ---- conditions

    fn if_holds<'a>(
        &self,
        tour: &mut Tour<'a, V>,
        place: &Place<'_, 'a>,
        test: &'a Expr,
        holds: &'a Stmt,
    ) -> Result<(), AllocError>
        requires { Walks V.step self.now.depth (E.pre self.now.expr) (E.post self.now.expr) (S.pre self.now.stmt) (S.post self.now.stmt) }
        ensures sites { OnOk result (tour.new.visitor ≡ past V.step (both (expr_in test.now).sites (spec.alone (stmt_in holds.now))) place.now tour.old) }
        ensures scopes { OnOk result (tour.new.scopes ≡ tour.old.scopes) }
    {
        self.expr(tour, place, test)?;
        self.alone(tour, place, holds)
    }

    fn if_else<'a>(
        &self,
        tour: &mut Tour<'a, V>,
        place: &Place<'_, 'a>,
        test: &'a Expr,
        holds: &'a Stmt,
        fails: &'a Stmt,
    ) -> Result<(), AllocError>
        requires { Walks V.step self.now.depth (E.pre self.now.expr) (E.post self.now.expr) (S.pre self.now.stmt) (S.post self.now.stmt) }
        ensures sites { OnOk result (tour.new.visitor ≡ past V.step (both (expr_in test.now).sites (both (spec.alone (stmt_in holds.now)) (spec.alone (stmt_in fails.now)))) place.now tour.old) }
        ensures scopes { OnOk result (tour.new.scopes ≡ tour.old.scopes) }
    {
        self.expr(tour, place, test)?;
        self.alone(tour, place, holds)?;
        self.alone(tour, place, fails)
    }

    // ---- loops

    fn while_loop<'a>(
        &self,
        tour: &mut Tour<'a, V>,
        place: &Place<'_, 'a>,
        test: &'a Expr,
        body: &'a Stmt,
    ) -> Result<(), AllocError>
        requires { Walks V.step self.now.depth (E.pre self.now.expr) (E.post self.now.expr) (S.pre self.now.stmt) (S.post self.now.stmt) }
        ensures sites { OnOk result (tour.new.visitor ≡ past V.step (both (expr_in test.now).sites (spec.turn (stmt_in body.now))) place.now tour.old) }
        ensures scopes { OnOk result (tour.new.scopes ≡ tour.old.scopes) }
    {
        self.expr(tour, place, test)?;
        self.turn(tour, place, body)
    }

    fn do_loop<'a>(
        &self,
        tour: &mut Tour<'a, V>,
        place: &Place<'_, 'a>,
        body: &'a Stmt,
        test: &'a Expr,
    ) -> Result<(), AllocError>
        requires { Walks V.step self.now.depth (E.pre self.now.expr) (E.post self.now.expr) (S.pre self.now.stmt) (S.post self.now.stmt) }
        ensures sites { OnOk result (tour.new.visitor ≡ past V.step (both (spec.turn (stmt_in body.now)) (expr_in test.now).sites) place.now tour.old) }
        ensures scopes { OnOk result (tour.new.scopes ≡ tour.old.scopes) }
    {
        self.turn(tour, place, body)?;
        self.expr(tour, place, test)
    }

    fn test<'a>(
        &self,
        tour: &mut Tour<'a, V>,
        place: &Place<'_, 'a>,
        test: &'a Option<Boxed<Expr>>,
    ) -> Result<(), AllocError>
        requires { Walks V.step self.now.depth (E.pre self.now.expr) (E.post self.now.expr) (S.pre self.now.stmt) (S.post self.now.stmt) }
        ensures sites { OnOk result (tour.new.visitor ≡ past V.step (if_any (λ y. (expr_in y).sites) test.now) place.now tour.old) }
        ensures scopes { OnOk result (tour.new.scopes ≡ tour.old.scopes) }
    {
        match test {
            Some(test) => self.expr(tour, place, test.get()),
            None => Ok(()),
        }
    }

    fn for_declared<'a>(
        &self,
        tour: &mut Tour<'a, V>,
        place: &Place<'_, 'a>,
        variables: &'a Variables,
        test: &'a Option<Boxed<Expr>>,
        updates: &'a [Expr],
        body: &'a Stmt,
    ) -> Result<(), AllocError>
        requires { Walks V.step self.now.depth (E.pre self.now.expr) (E.post self.now.expr) (S.pre self.now.stmt) (S.post self.now.stmt) }
        ensures sites { OnOk result (tour.new.visitor ≡ past V.step (spec.for_sites (variables_in variables.now) (both (if_any (λ y. (expr_in y).sites) test.now) (each (λ y. y.sites) (map expr_in updates.now))) (stmt_in body.now)) place.now tour.old) }
        ensures scopes { OnOk result (tour.new.scopes ≡ tour.old.scopes) }
    {
        let mut locals = Locals::new(tour.scopes.alloc());
        push_variables(&mut locals, LocalKind::ForVariable, variables)?;
        tour.scopes.push(Scope {
            kind: ScopeKind::For,
            locals,
        })?;
        self.local_variables(tour, place, variables)?;
        self.test(tour, place, test)?;
        self.exprs(tour, place, updates)?;
        self.turn(tour, place, body)?;
        tour.scopes.pop();
        Ok(())
    }

    fn for_loop<'a>(
        &self,
        tour: &mut Tour<'a, V>,
        place: &Place<'_, 'a>,
        firsts: &'a [Expr],
        test: &'a Option<Boxed<Expr>>,
        updates: &'a [Expr],
        body: &'a Stmt,
    ) -> Result<(), AllocError>
        requires { Walks V.step self.now.depth (E.pre self.now.expr) (E.post self.now.expr) (S.pre self.now.stmt) (S.post self.now.stmt) }
        ensures sites { OnOk result (tour.new.visitor ≡ past V.step (both (each (λ y. y.sites) (map expr_in firsts.now)) (both (if_any (λ y. (expr_in y).sites) test.now) (both (each (λ y. y.sites) (map expr_in updates.now)) (spec.turn (stmt_in body.now))))) place.now tour.old) }
        ensures scopes { OnOk result (tour.new.scopes ≡ tour.old.scopes) }
    {
        self.exprs(tour, place, firsts)?;
        self.test(tour, place, test)?;
        self.exprs(tour, place, updates)?;
        self.turn(tour, place, body)
    }

    fn for_in_declared<'a>(
        &self,
        tour: &mut Tour<'a, V>,
        place: &Place<'_, 'a>,
        span: Span,
        is_final: bool,
        name: &'a Name,
        values: &'a Expr,
        body: &'a Stmt,
    ) -> Result<(), AllocError>
        requires { Walks V.step self.now.depth (E.pre self.now.expr) (E.post self.now.expr) (S.pre self.now.stmt) (S.post self.now.stmt) }
        ensures sites { OnOk result (tour.new.visitor ≡ past V.step (both (here (x.ForIn span)) (spec.for_in_sites is_final name.now (expr_in values.now).sites (stmt_in body.now))) place.now tour.old) }
        ensures scopes { OnOk result (tour.new.scopes ≡ tour.old.scopes) }
    {
        let mut locals = Locals::new(tour.scopes.alloc());
        push_name(&mut locals, LocalKind::ForVariable, is_final, name)?;
        tour.visit(place, &Site::ForIn(span))?;
        tour.scopes.push(Scope {
            kind: ScopeKind::For,
            locals,
        })?;
        tour.visit(place, &Site::Local(Lent::new(name)))?;
        let scope = tour.scopes.pop();
        self.expr(tour, place, values)?;
        tour.scopes.put_back(scope)?;
        self.turn(tour, place, body)?;
        tour.scopes.pop();
        Ok(())
    }

    fn for_in<'a>(
        &self,
        tour: &mut Tour<'a, V>,
        place: &Place<'_, 'a>,
        span: Span,
        name: &'a Name,
        values: &'a Expr,
        body: &'a Stmt,
    ) -> Result<(), AllocError>
        requires { Walks V.step self.now.depth (E.pre self.now.expr) (E.post self.now.expr) (S.pre self.now.stmt) (S.post self.now.stmt) }
        ensures sites { OnOk result (tour.new.visitor ≡ past V.step (both (here (x.ForIn span)) (both (here (x.Named name.now u.Assigned)) (both (expr_in values.now).sites (spec.turn (stmt_in body.now))))) place.now tour.old) }
        ensures scopes { OnOk result (tour.new.scopes ≡ tour.old.scopes) }
    {
        tour.visit(place, &Site::ForIn(span))?;
        tour.visit(place, &Site::Named(Lent::new(name), Use::Assigned))?;
        self.expr(tour, place, values)?;
        self.turn(tour, place, body)
    }

    // ---- jumps

    fn return_value<'a>(
        &self,
        tour: &mut Tour<'a, V>,
        place: &Place<'_, 'a>,
        span: Span,
        value: &'a Expr,
    ) -> Result<(), AllocError>
        requires { Walks V.step self.now.depth (E.pre self.now.expr) (E.post self.now.expr) (S.pre self.now.stmt) (S.post self.now.stmt) }
        ensures sites { OnOk result (tour.new.visitor ≡ past V.step (both (here (x.ReturnValue span)) (expr_in value.now).sites) place.now tour.old) }
        ensures scopes { OnOk result (tour.new.scopes ≡ tour.old.scopes) }
    {
        tour.visit(place, &Site::ReturnValue(span))?;
        self.expr(tour, place, value)
    }

    // ---- clauses

    fn caught_type<'a>(
        &self,
        tour: &mut Tour<'a, V>,
        place: &Place<'_, 'a>,
        names: &'a Option<Names>,
    ) -> Result<(), AllocError>
        requires { Walks V.step self.now.depth (E.pre self.now.expr) (E.post self.now.expr) (S.pre self.now.stmt) (S.post self.now.stmt) }
        ensures sites { OnOk result (tour.new.visitor ≡ past V.step (if_any (λ y. here (x.TypeTested y)) names.now) place.now tour.old) }
        ensures scopes { OnOk result (tour.new.scopes ≡ tour.old.scopes) }
    {
        match names {
            Some(names) => tour.visit(place, &Site::TypeTested(LentSlice::new(names.as_slice()))),
            None => Ok(()),
        }
    }

    fn handler<'a>(
        &self,
        tour: &mut Tour<'a, V>,
        place: &Place<'_, 'a>,
        name: &'a Option<Name>,
        body: &'a [Stmt],
    ) -> Result<(), AllocError>
        requires { Walks V.step self.now.depth (E.pre self.now.expr) (E.post self.now.expr) (S.pre self.now.stmt) (S.post self.now.stmt) }
        ensures sites { OnOk result (tour.new.visitor ≡ past V.step (spec.clause name.now (map stmt_in body.now)) place.now tour.old) }
        ensures scopes { OnOk result (tour.new.scopes ≡ tour.old.scopes) }
    {
        let locals = caught_locals(tour.scopes.alloc(), name)?;
        tour.scopes.push(Scope {
            kind: ScopeKind::Catch,
            locals,
        })?;
        let inside = place.caught();
        tour.caught(&inside, name)?;
        self.block(tour, &inside, body)?;
        tour.scopes.pop();
        Ok(())
    }

    #[tactic(auto, using(crate::proofs::Visits::visited_append, crate::proofs::Parts::catch_parts))]
    fn clause<'a>(
        &self,
        tour: &mut Tour<'a, V>,
        place: &Place<'_, 'a>,
        clause: &'a Catch,
    ) -> Result<(), AllocError>
        requires { Walks V.step self.now.depth (E.pre self.now.expr) (E.post self.now.expr) (S.pre self.now.stmt) (S.post self.now.stmt) }
        ensures sites { OnOk result (tour.new.visitor ≡ past V.step (catch_in clause.now) place.now tour.old) }
        ensures scopes { OnOk result (tour.new.scopes ≡ tour.old.scopes) }
    {
        self.caught_type(tour, place, &clause.type_names)?;
        self.handler(tour, place, &clause.name, clause.body.as_slice())
    }

    fn clauses<'a>(
        &self,
        tour: &mut Tour<'a, V>,
        place: &Place<'_, 'a>,
        clauses: &'a [Catch],
    ) -> Result<(), AllocError>
        requires { Walks V.step self.now.depth (E.pre self.now.expr) (E.post self.now.expr) (S.pre self.now.stmt) (S.post self.now.stmt) }
        ensures sites { OnOk result (tour.new.visitor ≡ past V.step (each (λ y. y) (map catch_in clauses.now)) place.now tour.old) }
        ensures scopes { OnOk result (tour.new.scopes ≡ tour.old.scopes) }
    {
        for clause in clauses {
            self.clause(tour, place, clause)?;
        }
        Ok(())
    }

    fn try_catch<'a>(
        &self,
        tour: &mut Tour<'a, V>,
        place: &Place<'_, 'a>,
        body: &'a [Stmt],
        clauses: &'a [Catch],
    ) -> Result<(), AllocError>
        requires { Walks V.step self.now.depth (E.pre self.now.expr) (E.post self.now.expr) (S.pre self.now.stmt) (S.post self.now.stmt) }
        ensures sites { OnOk result (tour.new.visitor ≡ past V.step (both (spec.block (map stmt_in body.now)) (each (λ y. y) (map catch_in clauses.now))) place.now tour.old) }
        ensures scopes { OnOk result (tour.new.scopes ≡ tour.old.scopes) }
    {
        self.block(tour, place, body)?;
        self.clauses(tour, place, clauses)
    }

    fn try_finally<'a>(
        &self,
        tour: &mut Tour<'a, V>,
        place: &Place<'_, 'a>,
        body: &'a [Stmt],
        clauses: &'a [Catch],
        last: &'a [Stmt],
    ) -> Result<(), AllocError>
        requires { Walks V.step self.now.depth (E.pre self.now.expr) (E.post self.now.expr) (S.pre self.now.stmt) (S.post self.now.stmt) }
        ensures sites { OnOk result (tour.new.visitor ≡ past V.step (both (spec.block (map stmt_in body.now)) (both (each (λ y. y) (map catch_in clauses.now)) (spec.block (map stmt_in last.now)))) place.now tour.old) }
        ensures scopes { OnOk result (tour.new.scopes ≡ tour.old.scopes) }
    {
        self.block(tour, place, body)?;
        self.clauses(tour, place, clauses)?;
        self.block(tour, place, last)
    }

    /// What stands in a statement.
    #[tactic(auto, using(crate::proofs::Layers::for_declared_layer, crate::proofs::Layers::for_layer, crate::proofs::Layers::try_finally_layer))]
    pub fn stmt_form<'a>(
        &self,
        tour: &mut Tour<'a, V>,
        place: &Place<'_, 'a>,
        stmt: &'a Stmt,
    ) -> Result<(), AllocError>
        requires { Walks V.step self.now.depth (E.pre self.now.expr) (E.post self.now.expr) (S.pre self.now.stmt) (S.post self.now.stmt) }
        ensures sites { OnOk result (tour.new.visitor ≡ past V.step ((stmt_in stmt.now).sites) place.now tour.old) }
        ensures scopes { OnOk result (tour.new.scopes ≡ tour.old.scopes) }
    {
        match stmt {
            Stmt::Nested(_, stmts) => self.block(tour, place, stmts.as_slice()),
            Stmt::Declare(_, variables) => self.local_variables(tour, place, variables),
            Stmt::LocalFunction(span, name, parameters, body) => self.local_function(
                tour, place, *span, name, parameters, body,
            ),
            Stmt::Empty(_) => Ok(()),
            Stmt::Evaluate(_, value) => self.expr(tour, place, value.get()),
            Stmt::If(_, test, holds) => self.if_holds(tour, place, test.get(), holds.get()),
            Stmt::IfElse(_, test, holds, fails) => self.if_else(
                tour,
                place,
                test.get(),
                holds.get(),
                fails.get(),
            ),
            Stmt::While(_, test, body) => self.while_loop(tour, place, test.get(), body.get()),
            Stmt::Do(_, body, test) => self.do_loop(tour, place, body.get(), test.get()),
            Stmt::ForDeclared(_, variables, test, updates, body) => self.for_declared(
                tour,
                place,
                variables,
                test,
                updates.as_slice(),
                body.get(),
            ),
            Stmt::For(_, firsts, test, updates, body) => self.for_loop(
                tour,
                place,
                firsts.as_slice(),
                test,
                updates.as_slice(),
                body.get(),
            ),
            Stmt::ForInDeclared(span, is_final, name, values, body) => self.for_in_declared(
                tour,
                place,
                *span,
                *is_final,
                name,
                values.get(),
                body.get(),
            ),
            Stmt::ForIn(span, name, values, body) => self.for_in(
                tour,
                place,
                *span,
                name,
                values.get(),
                body.get(),
            ),
            Stmt::Break(span) => tour.visit(place, &Site::Break(*span)),
            Stmt::Continue(span) => tour.visit(place, &Site::Continue(*span)),
            Stmt::Return(span) => tour.visit(place, &Site::Return(*span)),
            Stmt::ReturnValue(span, value) => self.return_value(tour, place, *span, value.get()),
            Stmt::Rethrow(span) => tour.visit(place, &Site::Rethrow(*span)),
            Stmt::Assert(_) => Ok(()),
            Stmt::Try(_, body, clauses) => self.try_catch(
                tour,
                place,
                body.as_slice(),
                clauses.as_slice(),
            ),
            Stmt::TryFinally(_, body, clauses, last) => self.try_finally(
                tour,
                place,
                body.as_slice(),
                clauses.as_slice(),
                last.as_slice(),
            ),
        }
    }
}
