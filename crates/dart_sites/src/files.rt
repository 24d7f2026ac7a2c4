//! Files.
#![tactic(auto, using(crate::proofs::Visits::visited_append, crate::proofs::Innermost::outer_push))]

ghost use Rattle.std.specs.Prelude.{◌≡◌, ◌∷◌, [], map, OnOk, IfOk};
ghost use Rattle.std.specs.List.{flat_map};
ghost use Rattle.dart_sites.specs.declared.sites.SupertypeKind.TheVariants as t;
ghost use Rattle.dart_sites.specs.declared.surroundings.Within.TheVariants as w;
ghost use Rattle.dart_sites.specs.declared.sites.Site.TheVariants as x;
ghost use Rattle.dart_sites.specs.Files as spec;
ghost use Rattle.dart_sites.specs.Sites.{here, both, each, if_any};
ghost use Rattle.dart_sites.specs.Statements.{member_variables};
ghost use Rattle.dart_sites.specs.Surroundings.{in_class, in_alias};
ghost use Rattle.dart_sites.specs.Trees.{expr_in, arguments_in, variable_in, variables_in};
ghost use Rattle.dart_sites.specs.Visits.{visited};
ghost use Rattle.dart_sites.specs.Walks.{Walks, past};

use crate::knot::{expr_to, stmt_to};
use crate::lent::{Lent, LentSlice};
use crate::locals::{list_locals, push_parameter};
use crate::place::Place;
use crate::scopes::{Locals, Scope, ScopeKind, Scopes};
use crate::sites::{Site, SupertypeKind};
use crate::surroundings::{Owner, Within};
use crate::tour::Tour;
use crate::visitor::Visitor;
use crate::walker::Walker;
use dart_grammar::FileTree;
use dart_grammar::declarations::{
    Alias, Class, Constructor, Declaration, Function, Getter, Initialiser, Member, OperatorMethod,
    Setter,
};
use dart_grammar::trees::{Arguments, Expr, Name, Names, Span, Stmt, Variable, Variables};
use std::alloc::{AllocError, Global};
use std::marker::PhantomData;

fn is_end(initialisers: &[Initialiser]) -> bool
    ensures { result ≡ spec.is_end initialisers.now }
{
    match initialisers.first() {
        Some(_) => false,
        None => true,
    }
}

impl<
    V: Visitor,
    E: for<'a> Fn(usize, &mut Tour<'a, V>, &Place<'_, 'a>, &'a Expr) -> Result<(), AllocError>,
    S: for<'a> Fn(usize, &mut Tour<'a, V>, &Place<'_, 'a>, &'a Stmt) -> Result<(), AllocError>,
> Walker<V, E, S> {
    // ---- functions and accessors

    fn function<'a>(
        &self,
        tour: &mut Tour<'a, V>,
        place: &Place<'_, 'a>,
        function: &'a Function,
    ) -> Result<(), AllocError>
        requires { Walks V.step self.now.depth (E.pre self.now.expr) (E.post self.now.expr) (S.pre self.now.stmt) (S.post self.now.stmt) }
        ensures sites { OnOk result (tour.new.visitor ≡ past V.step (spec.function_in function.now) place.now tour.old) }
        ensures scopes { OnOk result (tour.new.scopes ≡ tour.old.scopes) }
    {
        tour.visit(place, &Site::Function(Lent::new(function)))?;
        self.member(tour, place, &function.parameters, &function.body)
    }

    fn getter<'a>(
        &self,
        tour: &mut Tour<'a, V>,
        place: &Place<'_, 'a>,
        getter: &'a Getter,
    ) -> Result<(), AllocError>
        requires { Walks V.step self.now.depth (E.pre self.now.expr) (E.post self.now.expr) (S.pre self.now.stmt) (S.post self.now.stmt) }
        ensures sites { OnOk result (tour.new.visitor ≡ past V.step (spec.getter_in getter.now) place.now tour.old) }
        ensures scopes { OnOk result (tour.new.scopes ≡ tour.old.scopes) }
    {
        tour.visit(place, &Site::Getter(Lent::new(getter)))?;
        self.body(tour, place, &getter.body)
    }

    fn setter<'a>(
        &self,
        tour: &mut Tour<'a, V>,
        place: &Place<'_, 'a>,
        setter: &'a Setter,
    ) -> Result<(), AllocError>
        requires { Walks V.step self.now.depth (E.pre self.now.expr) (E.post self.now.expr) (S.pre self.now.stmt) (S.post self.now.stmt) }
        ensures sites { OnOk result (tour.new.visitor ≡ past V.step (spec.setter_in setter.now) place.now tour.old) }
        ensures scopes { OnOk result (tour.new.scopes ≡ tour.old.scopes) }
    {
        tour.visit(place, &Site::Setter(Lent::new(setter)))?;
        let mut locals = Locals::new(tour.scopes.alloc());
        push_parameter(&mut locals, &setter.parameter)?;
        tour.scopes.push(Scope {
            kind: ScopeKind::Parameters,
            locals,
        })?;
        tour.parameter(place, &setter.parameter)?;
        self.body(tour, place, &setter.body)?;
        tour.scopes.pop();
        Ok(())
    }

    fn operator<'a>(
        &self,
        tour: &mut Tour<'a, V>,
        place: &Place<'_, 'a>,
        operator: &'a OperatorMethod,
    ) -> Result<(), AllocError>
        requires { Walks V.step self.now.depth (E.pre self.now.expr) (E.post self.now.expr) (S.pre self.now.stmt) (S.post self.now.stmt) }
        ensures sites { OnOk result (tour.new.visitor ≡ past V.step (spec.operator_in operator.now) place.now tour.old) }
        ensures scopes { OnOk result (tour.new.scopes ≡ tour.old.scopes) }
    {
        tour.visit(place, &Site::Operator(Lent::new(operator)))?;
        self.member(tour, place, &operator.parameters, &operator.body)
    }

    // ---- variables

    fn valued<'a>(
        &self,
        tour: &mut Tour<'a, V>,
        place: &Place<'_, 'a>,
        is_final: bool,
        name: &'a Name,
        value: &'a Expr,
    ) -> Result<(), AllocError>
        requires { Walks V.step self.now.depth (E.pre self.now.expr) (E.post self.now.expr) (S.pre self.now.stmt) (S.post self.now.stmt) }
        ensures sites { OnOk result (tour.new.visitor ≡ past V.step (both (here (x.Variable is_final name.now)) (expr_in value.now).sites) place.now tour.old) }
        ensures scopes { OnOk result (tour.new.scopes ≡ tour.old.scopes) }
    {
        tour.visit(place, &Site::Variable(is_final, Lent::new(name)))?;
        self.expr(tour, place, value)
    }

    fn member_variable<'a>(
        &self,
        tour: &mut Tour<'a, V>,
        place: &Place<'_, 'a>,
        is_final: bool,
        variable: &'a Variable,
    ) -> Result<(), AllocError>
        requires { Walks V.step self.now.depth (E.pre self.now.expr) (E.post self.now.expr) (S.pre self.now.stmt) (S.post self.now.stmt) }
        ensures sites { OnOk result (tour.new.visitor ≡ past V.step (both (here (x.Variable is_final (variable_in variable.now).name)) (variable_in variable.now).value) place.now tour.old) }
        ensures scopes { OnOk result (tour.new.scopes ≡ tour.old.scopes) }
    {
        match variable {
            Variable::Unset(name) => tour.visit(place, &Site::Variable(is_final, Lent::new(name))),
            Variable::Initialised(name, value) => self.valued(
                tour,
                place,
                is_final,
                name,
                value.get(),
            ),
        }
    }

    #[tactic(auto, using(crate::proofs::Visits::visited_append, crate::proofs::Parts::member_variables_of))]
    fn member_variables<'a>(
        &self,
        tour: &mut Tour<'a, V>,
        place: &Place<'_, 'a>,
        variables: &'a Variables,
    ) -> Result<(), AllocError>
        requires { Walks V.step self.now.depth (E.pre self.now.expr) (E.post self.now.expr) (S.pre self.now.stmt) (S.post self.now.stmt) }
        ensures sites { OnOk result (tour.new.visitor ≡ past V.step (member_variables (variables_in variables.now)) place.now tour.old) }
        ensures scopes { OnOk result (tour.new.scopes ≡ tour.old.scopes) }
    {
        for variable in variables.items.as_slice() {
            self.member_variable(tour, place, variables.is_final, variable)?;
        }
        Ok(())
    }

    // ---- constructors

    fn field_initialiser<'a>(
        &self,
        tour: &mut Tour<'a, V>,
        place: &Place<'_, 'a>,
        span: Span,
        name: &'a Name,
        value: &'a Expr,
    ) -> Result<(), AllocError>
        requires { Walks V.step self.now.depth (E.pre self.now.expr) (E.post self.now.expr) (S.pre self.now.stmt) (S.post self.now.stmt) }
        ensures sites { OnOk result (tour.new.visitor ≡ past V.step (both (here (x.FieldInitialiser span name.now)) (expr_in value.now).sites) place.now tour.old) }
        ensures scopes { OnOk result (tour.new.scopes ≡ tour.old.scopes) }
    {
        tour.visit(place, &Site::FieldInitialiser(span, Lent::new(name)))?;
        self.expr(tour, place, value)
    }

    #[tactic(auto, using(crate::proofs::Visits::visited_append, crate::proofs::Parts::arguments_count))]
    fn super_initialiser<'a>(
        &self,
        tour: &mut Tour<'a, V>,
        place: &Place<'_, 'a>,
        span: Span,
        name: &'a Option<Name>,
        arguments: &'a Arguments,
        is_last: bool,
    ) -> Result<(), AllocError>
        requires { Walks V.step self.now.depth (E.pre self.now.expr) (E.post self.now.expr) (S.pre self.now.stmt) (S.post self.now.stmt) }
        ensures sites { OnOk result (tour.new.visitor ≡ past V.step (both (here (x.SuperInitialiser span name.now (arguments_in arguments.now).count is_last)) (arguments_in arguments.now).sites) place.now tour.old) }
        ensures scopes { OnOk result (tour.new.scopes ≡ tour.old.scopes) }
    {
        let name = match name {
            Some(name) => Some(Lent::new(name)),
            None => None,
        };
        tour.visit(
            place,
            &Site::SuperInitialiser(span, name, arguments.items.len(), is_last),
        )?;
        self.arguments(tour, place, arguments)
    }

    fn initialiser<'a>(
        &self,
        tour: &mut Tour<'a, V>,
        place: &Place<'_, 'a>,
        is_last: bool,
        initialiser: &'a Initialiser,
    ) -> Result<(), AllocError>
        requires { Walks V.step self.now.depth (E.pre self.now.expr) (E.post self.now.expr) (S.pre self.now.stmt) (S.post self.now.stmt) }
        ensures sites { OnOk result (tour.new.visitor ≡ past V.step (spec.initialiser_in is_last initialiser.now) place.now tour.old) }
        ensures scopes { OnOk result (tour.new.scopes ≡ tour.old.scopes) }
    {
        match initialiser {
            Initialiser::Field(span, name, value) => self.field_initialiser(
                tour,
                place,
                *span,
                name,
                value.get(),
            ),
            Initialiser::Super(span, name, arguments) => self.super_initialiser(
                tour, place, *span, name, arguments, is_last,
            ),
        }
    }

    fn initialisers<'a>(
        &self,
        tour: &mut Tour<'a, V>,
        place: &Place<'_, 'a>,
        initialisers: &'a [Initialiser],
    ) -> Result<(), AllocError>
        requires { Walks V.step self.now.depth (E.pre self.now.expr) (E.post self.now.expr) (S.pre self.now.stmt) (S.post self.now.stmt) }
        ensures sites { OnOk result (tour.new.visitor ≡ past V.step (spec.initialisers_in initialisers.now) place.now tour.old) }
        ensures scopes { OnOk result (tour.new.scopes ≡ tour.old.scopes) }
    {
        let mut rest = initialisers;
        while let Some((initialiser, after)) = rest.split_first() {
            self.initialiser(tour, place, is_end(after), initialiser)?;
            rest = after;
        }
        Ok(())
    }

    fn constructor<'a>(
        &self,
        tour: &mut Tour<'a, V>,
        class: &'a Class,
        constructor: &'a Constructor,
    ) -> Result<(), AllocError>
        requires walks { Walks V.step self.now.depth (E.pre self.now.expr) (E.post self.now.expr) (S.pre self.now.stmt) (S.post self.now.stmt) }
        requires outermost { tour.old.scopes ≡ [] }
        ensures sites { OnOk result (tour.new.visitor ≡ visited V.step (spec.constructor_in class.now constructor.now) tour.old.visitor) }
        ensures scopes { OnOk result (tour.new.scopes ≡ tour.old.scopes) }
    {
        let owner = Some(Owner::Class(Lent::new(class)));
        let head = Within::ConstructorHead(Lent::new(constructor));
        let body = Within::ConstructorBody(Lent::new(constructor));
        let place = Place::new(&owner, &head);
        tour.visit(&place, &Site::Constructor(Lent::new(constructor)))?;
        let locals = list_locals(tour.scopes.alloc(), &constructor.parameters)?;
        tour.scopes.push(Scope {
            kind: ScopeKind::Parameters,
            locals,
        })?;
        self.parameters(tour, &place, &place, &constructor.parameters)?;
        self.initialisers(tour, &place, constructor.initialisers.as_slice())?;
        self.body(tour, &Place::new(&owner, &body), &constructor.body)?;
        tour.scopes.pop();
        Ok(())
    }

    // ---- classes

    fn function_member<'a>(
        &self,
        tour: &mut Tour<'a, V>,
        class: &'a Class,
        is_static: bool,
        function: &'a Function,
    ) -> Result<(), AllocError>
        requires walks { Walks V.step self.now.depth (E.pre self.now.expr) (E.post self.now.expr) (S.pre self.now.stmt) (S.post self.now.stmt) }
        requires outermost { tour.old.scopes ≡ [] }
        ensures sites { OnOk result (tour.new.visitor ≡ visited V.step (spec.function_in function.now (in_class class.now (spec.static_or w.Instance is_static))) tour.old.visitor) }
        ensures scopes { OnOk result (tour.new.scopes ≡ tour.old.scopes) }
    {
        let owner = Some(Owner::Class(Lent::new(class)));
        let within = if is_static {
            Within::Static
        } else {
            Within::Instance
        };
        self.function(tour, &Place::new(&owner, &within), function)
    }

    fn getter_member<'a>(
        &self,
        tour: &mut Tour<'a, V>,
        class: &'a Class,
        is_static: bool,
        getter: &'a Getter,
    ) -> Result<(), AllocError>
        requires walks { Walks V.step self.now.depth (E.pre self.now.expr) (E.post self.now.expr) (S.pre self.now.stmt) (S.post self.now.stmt) }
        requires outermost { tour.old.scopes ≡ [] }
        ensures sites { OnOk result (tour.new.visitor ≡ visited V.step (spec.getter_in getter.now (in_class class.now (spec.static_or w.Instance is_static))) tour.old.visitor) }
        ensures scopes { OnOk result (tour.new.scopes ≡ tour.old.scopes) }
    {
        let owner = Some(Owner::Class(Lent::new(class)));
        let within = if is_static {
            Within::Static
        } else {
            Within::Instance
        };
        self.getter(tour, &Place::new(&owner, &within), getter)
    }

    fn setter_member<'a>(
        &self,
        tour: &mut Tour<'a, V>,
        class: &'a Class,
        is_static: bool,
        setter: &'a Setter,
    ) -> Result<(), AllocError>
        requires walks { Walks V.step self.now.depth (E.pre self.now.expr) (E.post self.now.expr) (S.pre self.now.stmt) (S.post self.now.stmt) }
        requires outermost { tour.old.scopes ≡ [] }
        ensures sites { OnOk result (tour.new.visitor ≡ visited V.step (spec.setter_in setter.now (in_class class.now (spec.static_or w.Instance is_static))) tour.old.visitor) }
        ensures scopes { OnOk result (tour.new.scopes ≡ tour.old.scopes) }
    {
        let owner = Some(Owner::Class(Lent::new(class)));
        let within = if is_static {
            Within::Static
        } else {
            Within::Instance
        };
        self.setter(tour, &Place::new(&owner, &within), setter)
    }

    fn fields<'a>(
        &self,
        tour: &mut Tour<'a, V>,
        class: &'a Class,
        is_static: bool,
        variables: &'a Variables,
    ) -> Result<(), AllocError>
        requires walks { Walks V.step self.now.depth (E.pre self.now.expr) (E.post self.now.expr) (S.pre self.now.stmt) (S.post self.now.stmt) }
        requires outermost { tour.old.scopes ≡ [] }
        ensures sites { OnOk result (tour.new.visitor ≡ visited V.step (member_variables (variables_in variables.now) (in_class class.now (spec.static_or w.FieldValue is_static))) tour.old.visitor) }
        ensures scopes { OnOk result (tour.new.scopes ≡ tour.old.scopes) }
    {
        let owner = Some(Owner::Class(Lent::new(class)));
        let within = if is_static {
            Within::Static
        } else {
            Within::FieldValue
        };
        self.member_variables(tour, &Place::new(&owner, &within), variables)
    }

    fn operator_member<'a>(
        &self,
        tour: &mut Tour<'a, V>,
        class: &'a Class,
        operator: &'a OperatorMethod,
    ) -> Result<(), AllocError>
        requires walks { Walks V.step self.now.depth (E.pre self.now.expr) (E.post self.now.expr) (S.pre self.now.stmt) (S.post self.now.stmt) }
        requires outermost { tour.old.scopes ≡ [] }
        ensures sites { OnOk result (tour.new.visitor ≡ visited V.step (spec.operator_in operator.now (in_class class.now w.Instance)) tour.old.visitor) }
        ensures scopes { OnOk result (tour.new.scopes ≡ tour.old.scopes) }
    {
        let owner = Some(Owner::Class(Lent::new(class)));
        let within = Within::Instance;
        self.operator(tour, &Place::new(&owner, &within), operator)
    }

    fn class_member<'a>(
        &self,
        tour: &mut Tour<'a, V>,
        class: &'a Class,
        member: &'a Member,
    ) -> Result<(), AllocError>
        requires walks { Walks V.step self.now.depth (E.pre self.now.expr) (E.post self.now.expr) (S.pre self.now.stmt) (S.post self.now.stmt) }
        requires outermost { tour.old.scopes ≡ [] }
        ensures sites { OnOk result (tour.new.visitor ≡ visited V.step (spec.member_in class.now member.now) tour.old.visitor) }
        ensures scopes { OnOk result (tour.new.scopes ≡ tour.old.scopes) }
    {
        match member {
            Member::Function(is_static, function) => self.function_member(
                tour, class, *is_static, function,
            ),
            Member::Getter(is_static, getter) => self.getter_member(
                tour, class, *is_static, getter,
            ),
            Member::Setter(is_static, setter) => self.setter_member(
                tour, class, *is_static, setter,
            ),
            Member::Fields(is_static, _, variables) => self.fields(
                tour, class, *is_static, variables,
            ),
            Member::Operator(operator) => self.operator_member(tour, class, operator),
            Member::Constructor(constructor) => self.constructor(tour, class, constructor),
        }
    }

    fn members<'a>(
        &self,
        tour: &mut Tour<'a, V>,
        class: &'a Class,
        members: &'a [Member],
    ) -> Result<(), AllocError>
        requires walks { Walks V.step self.now.depth (E.pre self.now.expr) (E.post self.now.expr) (S.pre self.now.stmt) (S.post self.now.stmt) }
        requires outermost { tour.old.scopes ≡ [] }
        ensures sites { OnOk result (tour.new.visitor ≡ visited V.step (flat_map (spec.member_in class.now) members.now) tour.old.visitor) }
        ensures scopes { OnOk result (tour.new.scopes ≡ tour.old.scopes) }
    {
        for member in members {
            self.class_member(tour, class, member)?;
        }
        Ok(())
    }

    fn supertype<'a>(
        &self,
        tour: &mut Tour<'a, V>,
        place: &Place<'_, 'a>,
        kind: SupertypeKind,
        names: &'a Names,
    ) -> Result<(), AllocError>
        requires { Walks V.step self.now.depth (E.pre self.now.expr) (E.post self.now.expr) (S.pre self.now.stmt) (S.post self.now.stmt) }
        ensures sites { OnOk result (tour.new.visitor ≡ past V.step (spec.supertype kind names.now) place.now tour.old) }
        ensures scopes { OnOk result (tour.new.scopes ≡ tour.old.scopes) }
    {
        tour.visit(
            place,
            &Site::Supertype(kind, LentSlice::new(names.as_slice())),
        )
    }

    fn superclass<'a>(
        &self,
        tour: &mut Tour<'a, V>,
        place: &Place<'_, 'a>,
        names: &'a Option<Names>,
    ) -> Result<(), AllocError>
        requires { Walks V.step self.now.depth (E.pre self.now.expr) (E.post self.now.expr) (S.pre self.now.stmt) (S.post self.now.stmt) }
        ensures sites { OnOk result (tour.new.visitor ≡ past V.step (if_any (spec.supertype t.Superclass) names.now) place.now tour.old) }
        ensures scopes { OnOk result (tour.new.scopes ≡ tour.old.scopes) }
    {
        match names {
            Some(names) => self.supertype(tour, place, SupertypeKind::Superclass, names),
            None => Ok(()),
        }
    }

    fn supertypes<'a>(
        &self,
        tour: &mut Tour<'a, V>,
        place: &Place<'_, 'a>,
        kind: SupertypeKind,
        types: &'a [Names],
    ) -> Result<(), AllocError>
        requires { Walks V.step self.now.depth (E.pre self.now.expr) (E.post self.now.expr) (S.pre self.now.stmt) (S.post self.now.stmt) }
        ensures sites { OnOk result (tour.new.visitor ≡ past V.step (each (spec.supertype kind) types.now) place.now tour.old) }
        ensures scopes { OnOk result (tour.new.scopes ≡ tour.old.scopes) }
    {
        for names in types {
            self.supertype(tour, place, kind, names)?;
        }
        Ok(())
    }

    fn class_header<'a>(&self, tour: &mut Tour<'a, V>, class: &'a Class) -> Result<(), AllocError>
        requires walks { Walks V.step self.now.depth (E.pre self.now.expr) (E.post self.now.expr) (S.pre self.now.stmt) (S.post self.now.stmt) }
        requires outermost { tour.old.scopes ≡ [] }
        ensures sites { OnOk result (tour.new.visitor ≡ visited V.step (spec.class_header class.now (in_class class.now w.Header)) tour.old.visitor) }
        ensures scopes { OnOk result (tour.new.scopes ≡ tour.old.scopes) }
    {
        let owner = Some(Owner::Class(Lent::new(class)));
        let within = Within::Header;
        let place = Place::new(&owner, &within);
        self.superclass(tour, &place, &class.superclass)?;
        self.supertypes(tour, &place, SupertypeKind::Mixin, class.mixins.as_slice())?;
        self.supertypes(
            tour,
            &place,
            SupertypeKind::Interface,
            class.interfaces.as_slice(),
        )
    }

    fn alias_header<'a>(&self, tour: &mut Tour<'a, V>, alias: &'a Alias) -> Result<(), AllocError>
        requires walks { Walks V.step self.now.depth (E.pre self.now.expr) (E.post self.now.expr) (S.pre self.now.stmt) (S.post self.now.stmt) }
        requires outermost { tour.old.scopes ≡ [] }
        ensures sites { OnOk result (tour.new.visitor ≡ visited V.step (spec.alias_header alias.now (in_alias alias.now)) tour.old.visitor) }
        ensures scopes { OnOk result (tour.new.scopes ≡ tour.old.scopes) }
    {
        let owner = Some(Owner::Alias(Lent::new(alias)));
        let within = Within::Header;
        let place = Place::new(&owner, &within);
        self.supertype(tour, &place, SupertypeKind::Superclass, &alias.superclass)?;
        self.supertypes(tour, &place, SupertypeKind::Mixin, alias.mixins.as_slice())?;
        self.supertypes(
            tour,
            &place,
            SupertypeKind::Interface,
            alias.interfaces.as_slice(),
        )
    }

    // ---- declarations

    fn class<'a>(&self, tour: &mut Tour<'a, V>, class: &'a Class) -> Result<(), AllocError>
        requires walks { Walks V.step self.now.depth (E.pre self.now.expr) (E.post self.now.expr) (S.pre self.now.stmt) (S.post self.now.stmt) }
        requires outermost { tour.old.scopes ≡ [] }
        ensures sites { OnOk result (tour.new.visitor ≡ visited V.step (spec.class_in class.now) tour.old.visitor) }
        ensures scopes { OnOk result (tour.new.scopes ≡ tour.old.scopes) }
    {
        let owner = None;
        let within = Within::Library;
        tour.visit(&Place::new(&owner, &within), &Site::Class(Lent::new(class)))?;
        self.class_header(tour, class)?;
        self.members(tour, class, class.members.as_slice())
    }

    fn alias<'a>(&self, tour: &mut Tour<'a, V>, alias: &'a Alias) -> Result<(), AllocError>
        requires walks { Walks V.step self.now.depth (E.pre self.now.expr) (E.post self.now.expr) (S.pre self.now.stmt) (S.post self.now.stmt) }
        requires outermost { tour.old.scopes ≡ [] }
        ensures sites { OnOk result (tour.new.visitor ≡ visited V.step (spec.alias_in alias.now) tour.old.visitor) }
        ensures scopes { OnOk result (tour.new.scopes ≡ tour.old.scopes) }
    {
        let owner = None;
        let within = Within::Library;
        tour.visit(&Place::new(&owner, &within), &Site::Alias(Lent::new(alias)))?;
        self.alias_header(tour, alias)
    }

    fn declaration<'a>(
        &self,
        tour: &mut Tour<'a, V>,
        declaration: &'a Declaration,
    ) -> Result<(), AllocError>
        requires walks { Walks V.step self.now.depth (E.pre self.now.expr) (E.post self.now.expr) (S.pre self.now.stmt) (S.post self.now.stmt) }
        requires outermost { tour.old.scopes ≡ [] }
        ensures sites { OnOk result (tour.new.visitor ≡ visited V.step (spec.declaration_in declaration.now) tour.old.visitor) }
        ensures scopes { OnOk result (tour.new.scopes ≡ tour.old.scopes) }
    {
        let owner = None;
        let within = Within::Library;
        let place = Place::new(&owner, &within);
        match declaration {
            Declaration::Class(class) => self.class(tour, class),
            Declaration::Alias(alias) => self.alias(tour, alias),
            Declaration::Function(function) => self.function(tour, &place, function),
            Declaration::Getter(getter) => self.getter(tour, &place, getter),
            Declaration::Setter(setter) => self.setter(tour, &place, setter),
            Declaration::Variables(_, variables) => self.member_variables(tour, &place, variables),
        }
    }

    fn declarations<'a>(
        &self,
        tour: &mut Tour<'a, V>,
        declarations: &'a [Declaration],
    ) -> Result<(), AllocError>
        requires walks { Walks V.step self.now.depth (E.pre self.now.expr) (E.post self.now.expr) (S.pre self.now.stmt) (S.post self.now.stmt) }
        requires outermost { tour.old.scopes ≡ [] }
        ensures sites { OnOk result (tour.new.visitor ≡ visited V.step (flat_map spec.declaration_in declarations.now) tour.old.visitor) }
        ensures scopes { OnOk result (tour.new.scopes ≡ tour.old.scopes) }
    {
        for declaration in declarations {
            self.declaration(tour, declaration)?;
        }
        Ok(())
    }
}

/// Shows a visitor each site of a file with what is around it, in the order in which they stand, and answers the visitor.
/// Takes time linear in the tree, but for what the visitor does, and recurs as deep as the tree nests.
#[tactic(auto, unfolding(crate::specs::Files::sites_of_file))]
pub fn visit_file<V: Visitor + Drop>(
    alloc: Global,
    file: &FileTree,
    visitor: V,
) -> Result<V, AllocError>
    ensures { IfOk result (λ v. v ≡ visited V.step (spec.sites_of_file file.now) visitor) }
{
    let walker = Walker {
        depth: usize::MAX,
        expr: expr_to,
        stmt: stmt_to,
        visitor: PhantomData,
    };
    let mut tour = Tour {
        visitor,
        scopes: Scopes::new(alloc),
    };
    walker.declarations(&mut tour, file.declarations.as_slice())?;
    let Tour { visitor, .. } = tour;
    Ok(visitor)
}

/// Shows a visitor each site of a class with what is around it, in the order in which they stand, and answers the visitor: those that
/// [`visit_file`] shows between the class itself and its last member.
pub fn visit_class<V: Visitor + Drop>(
    alloc: Global,
    class: &Class,
    visitor: V,
) -> Result<V, AllocError>
    ensures { IfOk result (λ v. v ≡ visited V.step (spec.class_in class.now) visitor) }
{
    let walker = Walker {
        depth: usize::MAX,
        expr: expr_to,
        stmt: stmt_to,
        visitor: PhantomData,
    };
    let mut tour = Tour {
        visitor,
        scopes: Scopes::new(alloc),
    };
    walker.class(&mut tour, class)?;
    let Tour { visitor, .. } = tour;
    Ok(visitor)
}
