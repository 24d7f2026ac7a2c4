//! Parameter lists, and the bodies of functions.
#![tactic(auto, using(crate::proofs::Visits::visited_append, crate::proofs::Innermost::outer_push))]

ghost use Rattle.std.specs.Prelude.{◌≡◌, ◌∷◌, [], ◌++◌, map, OnOk};
ghost use Rattle.std.specs.List.{flat_map};
ghost use Rattle.dart_sites.specs.declared.sites.Site.TheVariants as x;
ghost use Rattle.dart_sites.specs.Functions as spec;
ghost use Rattle.dart_sites.specs.Scopes.{outer};
ghost use Rattle.dart_sites.specs.Sites.{here, both, each};
ghost use Rattle.dart_sites.specs.Trees.{expr_in, body_in, parameters_in, optional_in};
ghost use Rattle.dart_sites.specs.Visits.{visited, around};
ghost use Rattle.dart_sites.specs.Walks.{Walks, past, with_default, with_parameters};

use crate::asked::{is_constant, span_in};
use crate::lent::Lent;
use crate::locals::list_locals;
use crate::place::Place;
use crate::scopes::{Scope, ScopeKind};
use crate::sites::Site;
use crate::tour::Tour;
use crate::visitor::Visitor;
use crate::walker::Walker;
use dart_grammar::trees::{Body, Expr, Name, OptionalParameter, Parameter, Parameters, Span, Stmt};
use std::alloc::AllocError;

/// How many parameters a list has.
#[tactic(auto, using(crate::proofs::Parts::parameters_count))]
fn count_of(parameters: &Parameters) -> usize
    ensures { result ≡ (parameters_in parameters.now).count }
{
    let required = parameters.required.as_slice();
    let optional = parameters.optional.as_slice();
    required.len() + optional.len()
}

impl<
    V: Visitor,
    E: for<'a> Fn(usize, &mut Tour<'a, V>, &Place<'_, 'a>, &'a Expr) -> Result<(), AllocError>,
    S: for<'a> Fn(usize, &mut Tour<'a, V>, &Place<'_, 'a>, &'a Stmt) -> Result<(), AllocError>,
> Walker<V, E, S> {
    fn default_value<'a>(
        &self,
        tour: &mut Tour<'a, V>,
        place: &Place<'_, 'a>,
        value: &'a Expr,
    ) -> Result<(), AllocError>
        requires { Walks V.step self.now.depth (E.pre self.now.expr) (E.post self.now.expr) (S.pre self.now.stmt) (S.post self.now.stmt) }
        ensures sites { OnOk result (tour.new.visitor ≡ past V.step (both (here (x.Default (expr_in value.now).span (expr_in value.now).is_constant)) (expr_in value.now).sites) place.now tour.old) }
        ensures scopes { OnOk result (tour.new.scopes ≡ tour.old.scopes) }
    {
        tour.visit(place, &Site::Default(span_in(value), is_constant(value)))?;
        self.expr(tour, place, value)
    }

    fn with_default<'s, 'a>(
        &self,
        tour: &mut Tour<'a, V>,
        outside: &Place<'s, 'a>,
        inside: &Place<'s, 'a>,
        parameter: &'a Parameter,
        value: &'a Expr,
    ) -> Result<(), AllocError>
        requires { Walks V.step self.now.depth (E.pre self.now.expr) (E.post self.now.expr) (S.pre self.now.stmt) (S.post self.now.stmt) }
        ensures sites { OnOk result (tour.new.visitor ≡ visited V.step (with_default parameter.now (expr_in value.now) (around outside.now (outer tour.old.scopes)) (around inside.now tour.old.scopes)) tour.old.visitor) }
        ensures scopes { OnOk result (tour.new.scopes ≡ tour.old.scopes) }
    {
        tour.parameter(inside, parameter)?;
        let scope = tour.scopes.pop();
        self.default_value(tour, outside, value)?;
        tour.scopes.put_back(scope)
    }

    fn optional<'s, 'a>(
        &self,
        tour: &mut Tour<'a, V>,
        outside: &Place<'s, 'a>,
        inside: &Place<'s, 'a>,
        optional: &'a OptionalParameter,
    ) -> Result<(), AllocError>
        requires { Walks V.step self.now.depth (E.pre self.now.expr) (E.post self.now.expr) (S.pre self.now.stmt) (S.post self.now.stmt) }
        ensures sites { OnOk result (tour.new.visitor ≡ visited V.step ((optional_in optional.now).sites (around outside.now (outer tour.old.scopes)) (around inside.now tour.old.scopes)) tour.old.visitor) }
        ensures scopes { OnOk result (tour.new.scopes ≡ tour.old.scopes) }
    {
        match optional {
            OptionalParameter::WithoutDefault(parameter) => tour.parameter(inside, parameter),
            OptionalParameter::WithDefault(parameter, value) => self.with_default(
                tour,
                outside,
                inside,
                parameter,
                value.get(),
            ),
        }
    }

    fn optionals<'s, 'a>(
        &self,
        tour: &mut Tour<'a, V>,
        outside: &Place<'s, 'a>,
        inside: &Place<'s, 'a>,
        optional: &'a [OptionalParameter],
    ) -> Result<(), AllocError>
        requires { Walks V.step self.now.depth (E.pre self.now.expr) (E.post self.now.expr) (S.pre self.now.stmt) (S.post self.now.stmt) }
        ensures sites { OnOk result (tour.new.visitor ≡ visited V.step (flat_map (λ y. y.sites (around outside.now (outer tour.old.scopes)) (around inside.now tour.old.scopes)) (map optional_in optional.now)) tour.old.visitor) }
        ensures scopes { OnOk result (tour.new.scopes ≡ tour.old.scopes) }
    {
        for parameter in optional {
            self.optional(tour, outside, inside, parameter)?;
        }
        Ok(())
    }

    fn required<'a>(
        &self,
        tour: &mut Tour<'a, V>,
        place: &Place<'_, 'a>,
        parameters: &'a [Parameter],
    ) -> Result<(), AllocError>
        requires { Walks V.step self.now.depth (E.pre self.now.expr) (E.post self.now.expr) (S.pre self.now.stmt) (S.post self.now.stmt) }
        ensures sites { OnOk result (tour.new.visitor ≡ past V.step (each spec.parameter_sites parameters.now) place.now tour.old) }
        ensures scopes { OnOk result (tour.new.scopes ≡ tour.old.scopes) }
    {
        for parameter in parameters {
            tour.parameter(place, parameter)?;
        }
        Ok(())
    }

    /// A parameter list. Names stand in the function's own scope, which is there already, and defaults outside.
    #[tactic(auto, using(crate::proofs::Visits::visited_append, crate::proofs::Parts::parameters_sites))]
    pub fn parameters<'s, 'a>(
        &self,
        tour: &mut Tour<'a, V>,
        outside: &Place<'s, 'a>,
        inside: &Place<'s, 'a>,
        parameters: &'a Parameters,
    ) -> Result<(), AllocError>
        requires { Walks V.step self.now.depth (E.pre self.now.expr) (E.post self.now.expr) (S.pre self.now.stmt) (S.post self.now.stmt) }
        ensures sites { OnOk result (tour.new.visitor ≡ visited V.step ((parameters_in parameters.now).sites (around outside.now (outer tour.old.scopes)) (around inside.now tour.old.scopes)) tour.old.visitor) }
        ensures scopes { OnOk result (tour.new.scopes ≡ tour.old.scopes) }
    {
        let required = parameters.required.as_slice();
        let optional = parameters.optional.as_slice();
        tour.visit(
            inside,
            &Site::ParameterList(parameters.span, required.len() + optional.len()),
        )?;
        self.required(tour, inside, required)?;
        self.optionals(tour, outside, inside, optional)
    }

    /// What a function does.
    pub fn body<'a>(
        &self,
        tour: &mut Tour<'a, V>,
        place: &Place<'_, 'a>,
        body: &'a Body,
    ) -> Result<(), AllocError>
        requires { Walks V.step self.now.depth (E.pre self.now.expr) (E.post self.now.expr) (S.pre self.now.stmt) (S.post self.now.stmt) }
        ensures sites { OnOk result (tour.new.visitor ≡ past V.step (body_in body.now) place.now tour.old) }
        ensures scopes { OnOk result (tour.new.scopes ≡ tour.old.scopes) }
    {
        match body {
            Body::Gives(value) => self.expr(tour, place, value.get()),
            Body::Block(stmts) => self.block(tour, place, stmts.as_slice()),
            Body::Abstract => Ok(()),
            Body::Native(_) => Ok(()),
        }
    }

    /// The parameters and the body of a function, by what is around it and by what is around what is in it.
    pub fn with_parameters<'s, 'a>(
        &self,
        tour: &mut Tour<'a, V>,
        outside: &Place<'s, 'a>,
        inside: &Place<'s, 'a>,
        parameters: &'a Parameters,
        body: &'a Body,
    ) -> Result<(), AllocError>
        requires { Walks V.step self.now.depth (E.pre self.now.expr) (E.post self.now.expr) (S.pre self.now.stmt) (S.post self.now.stmt) }
        ensures sites { OnOk result (tour.new.visitor ≡ visited V.step (with_parameters (parameters_in parameters.now) (body_in body.now) outside.now inside.now tour.old.scopes) tour.old.visitor) }
        ensures scopes { OnOk result (tour.new.scopes ≡ tour.old.scopes) }
    {
        let locals = list_locals(tour.scopes.alloc(), parameters)?;
        tour.scopes.push(Scope {
            kind: ScopeKind::Parameters,
            locals,
        })?;
        self.parameters(tour, outside, inside, parameters)?;
        self.body(tour, inside, body)?;
        tour.scopes.pop();
        Ok(())
    }

    /// The parameters and the body of a member.
    pub fn member<'a>(
        &self,
        tour: &mut Tour<'a, V>,
        place: &Place<'_, 'a>,
        parameters: &'a Parameters,
        body: &'a Body,
    ) -> Result<(), AllocError>
        requires { Walks V.step self.now.depth (E.pre self.now.expr) (E.post self.now.expr) (S.pre self.now.stmt) (S.post self.now.stmt) }
        ensures sites { OnOk result (tour.new.visitor ≡ past V.step (spec.member_sites (parameters_in parameters.now) (body_in body.now)) place.now tour.old) }
        ensures scopes { OnOk result (tour.new.scopes ≡ tour.old.scopes) }
    {
        self.with_parameters(tour, place, place, parameters, body)
    }

    /// A function literal.
    pub fn literal<'a>(
        &self,
        tour: &mut Tour<'a, V>,
        place: &Place<'_, 'a>,
        span: Span,
        parameters: &'a Parameters,
        body: &'a Body,
    ) -> Result<(), AllocError>
        requires { Walks V.step self.now.depth (E.pre self.now.expr) (E.post self.now.expr) (S.pre self.now.stmt) (S.post self.now.stmt) }
        ensures sites { OnOk result (tour.new.visitor ≡ past V.step (both (here (x.Literal span (parameters_in parameters.now).count)) (spec.function_sites (parameters_in parameters.now) (body_in body.now))) place.now tour.old) }
        ensures scopes { OnOk result (tour.new.scopes ≡ tour.old.scopes) }
    {
        tour.visit(place, &Site::Literal(span, count_of(parameters)))?;
        self.with_parameters(tour, place, &place.functioned(), parameters, body)
    }

    /// A local function.
    pub fn local_function<'a>(
        &self,
        tour: &mut Tour<'a, V>,
        place: &Place<'_, 'a>,
        span: Span,
        name: &'a Name,
        parameters: &'a Parameters,
        body: &'a Body,
    ) -> Result<(), AllocError>
        requires { Walks V.step self.now.depth (E.pre self.now.expr) (E.post self.now.expr) (S.pre self.now.stmt) (S.post self.now.stmt) }
        ensures sites { OnOk result (tour.new.visitor ≡ past V.step (both (here (x.LocalFunction span name.now (parameters_in parameters.now).count)) (both (here (x.Local name.now)) (spec.function_sites (parameters_in parameters.now) (body_in body.now)))) place.now tour.old) }
        ensures scopes { OnOk result (tour.new.scopes ≡ tour.old.scopes) }
    {
        tour.visit(
            place,
            &Site::LocalFunction(span, Lent::new(name), count_of(parameters)),
        )?;
        tour.visit(place, &Site::Local(Lent::new(name)))?;
        self.with_parameters(tour, place, &place.functioned(), parameters, body)
    }
}
