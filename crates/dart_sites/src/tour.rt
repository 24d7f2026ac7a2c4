//! A visitor on its way through a file.
ghost use Rattle.std.specs.Prelude.{◌≡◌, OnOk};
ghost use Rattle.dart_sites.specs.declared.sites.Use.TheVariants as u;
ghost use Rattle.dart_sites.specs.Expressions as spec;
ghost use Rattle.dart_sites.specs.Functions.{parameter_sites};
ghost use Rattle.dart_sites.specs.Sites.{here};
ghost use Rattle.dart_sites.specs.Statements.{caught_name};
ghost use Rattle.dart_sites.specs.Trees.{arguments_in};
ghost use Rattle.dart_sites.specs.Walks.{past};

use crate::lent::Lent;
use crate::place::Place;
use crate::scopes::Scopes;
use crate::sites::{Receiver, Site, Use};
use crate::surroundings::Surroundings;
use crate::visitor::Visitor;
use dart_grammar::declarations::OperatorName;
use dart_grammar::trees::{Arguments, Name, Parameter, Span};
use std::alloc::AllocError;

/// A visitor, and the scopes around the place that it has come to.
#[derive(Drop)]
pub struct Tour<'a, V> {
    pub visitor: V,
    pub scopes: Scopes<'a>,
}

impl<'a, V: Visitor> Tour<'a, V> {
    /// Shows the visitor what stands here.
    pub fn visit(&mut self, place: &Place<'_, 'a>, site: &Site<'a>) -> Result<(), AllocError>
        ensures sites { OnOk result (self.new.visitor ≡ past V.step (here site.now) place.now self.old) }
        ensures scopes { OnOk result (self.new.scopes ≡ self.old.scopes) }
    {
        let surroundings = Surroundings {
            class: Lent::new(place.class.get()),
            within: Lent::new(place.within.get()),
            in_function: place.in_function,
            in_loop: place.in_loop,
            in_catch: place.in_catch,
            scopes: Lent::new(&self.scopes),
        };
        self.visitor.visit(&surroundings, site)
    }

    /// The method of an operator, if it calls one.
    pub fn operated(
        &mut self,
        place: &Place<'_, 'a>,
        span: Span,
        on_super: bool,
        method: Option<OperatorName>,
    ) -> Result<(), AllocError>
        ensures sites { OnOk result (self.new.visitor ≡ past V.step (spec.operated span on_super method) place.now self.old) }
        ensures scopes { OnOk result (self.new.scopes ≡ self.old.scopes) }
    {
        match method {
            Some(method) => self.visit(place, &Site::Operated(span, method, on_super)),
            None => Ok(()),
        }
    }

    /// The methods of an index that is a target.
    #[tactic(auto, using(crate::proofs::Visits::visited_append))]
    pub fn index_operated(
        &mut self,
        place: &Place<'_, 'a>,
        span: Span,
        on_super: bool,
        target_use: Use,
    ) -> Result<(), AllocError>
        ensures sites { OnOk result (self.new.visitor ≡ past V.step (spec.index_operated span on_super target_use) place.now self.old) }
        ensures scopes { OnOk result (self.new.scopes ≡ self.old.scopes) }
    {
        match target_use {
            Use::Changed => self.index_changed(place, span, on_super),
            Use::Read => self.visit(
                place,
                &Site::Operated(span, OperatorName::SetIndex, on_super),
            ),
            Use::ReadBeforeDot => self.visit(
                place,
                &Site::Operated(span, OperatorName::SetIndex, on_super),
            ),
            Use::Called(_) => self.visit(
                place,
                &Site::Operated(span, OperatorName::SetIndex, on_super),
            ),
            Use::Assigned => self.visit(
                place,
                &Site::Operated(span, OperatorName::SetIndex, on_super),
            ),
        }
    }

    #[tactic(auto, using(crate::proofs::Visits::visited_append))]
    fn index_changed(
        &mut self,
        place: &Place<'_, 'a>,
        span: Span,
        on_super: bool,
    ) -> Result<(), AllocError>
        ensures sites { OnOk result (self.new.visitor ≡ past V.step (spec.index_operated span on_super u.Changed) place.now self.old) }
        ensures scopes { OnOk result (self.new.scopes ≡ self.old.scopes) }
    {
        self.visit(place, &Site::Operated(span, OperatorName::Index, on_super))?;
        self.visit(
            place,
            &Site::Operated(span, OperatorName::SetIndex, on_super),
        )
    }

    /// A call of what is no name.
    #[tactic(auto, using(crate::proofs::Parts::arguments_span, crate::proofs::Parts::arguments_count))]
    pub fn value_called(
        &mut self,
        place: &Place<'_, 'a>,
        receiver: &Receiver<'a>,
        arguments: &'a Arguments,
    ) -> Result<(), AllocError>
        ensures sites { OnOk result (self.new.visitor ≡ past V.step (spec.value_called receiver.now (arguments_in arguments.now)) place.now self.old) }
        ensures scopes { OnOk result (self.new.scopes ≡ self.old.scopes) }
    {
        match receiver {
            Receiver::Named(_) => Ok(()),
            Receiver::Dotted(_, _) => Ok(()),
            Receiver::Super => self.visit(
                place,
                &Site::ValueCalled(arguments.span, arguments.items.len()),
            ),
            Receiver::Other => self.visit(
                place,
                &Site::ValueCalled(arguments.span, arguments.items.len()),
            ),
        }
    }

    /// A parameter's name.
    pub fn parameter(
        &mut self,
        place: &Place<'_, 'a>,
        parameter: &'a Parameter,
    ) -> Result<(), AllocError>
        ensures sites { OnOk result (self.new.visitor ≡ past V.step (parameter_sites parameter.now) place.now self.old) }
        ensures scopes { OnOk result (self.new.scopes ≡ self.old.scopes) }
    {
        match parameter.this {
            Some(span) => self.visit(
                place,
                &Site::FieldParameter(span, Lent::new(&parameter.name)),
            ),
            None => self.visit(place, &Site::Local(Lent::new(&parameter.name))),
        }
    }

    /// The name of what a clause caught, if it has one.
    pub fn caught(
        &mut self,
        place: &Place<'_, 'a>,
        name: &'a Option<Name>,
    ) -> Result<(), AllocError>
        ensures sites { OnOk result (self.new.visitor ≡ past V.step (caught_name name.now) place.now self.old) }
        ensures scopes { OnOk result (self.new.scopes ≡ self.old.scopes) }
    {
        match name {
            Some(name) => self.visit(place, &Site::Local(Lent::new(name))),
            None => Ok(()),
        }
    }
}
