//! What a constructor sets before its body.
ghost use Rattle.std.specs.Prelude.{◌≡◌, ◌++◌, [], IfOk, OnOk};
ghost use Rattle.std.specs.List.{flat_map};
ghost use Rattle.dart_program.specs.Sooner.{first_with};
ghost use Rattle.field_rules.specs.Fields as spec;
ghost use Rattle.field_rules.specs.Rules.{faults};
ghost use Rattle.field_rules.specs.Steps.{set_one, set_all};

use dart_grammar::declarations::{Constructor, Initialiser};
use dart_grammar::trees::{Name, OptionalParameter, Parameter, Span};
use dart_program::first::sooner;
use dart_program::{Refusal, Rule};
use library_scopes::names::NameSet;
use std::alloc::{AllocError, Global};

/// What a constructor has set so far, and the first broken rule, in the file of this number.
#[derive(Drop)]
pub struct Constructing {
    pub file: u32,
    pub first: Option<Refusal>,
    pub set: NameSet,
}

impl Constructing {
    /// Sets a name at this place, of a class with these fields.
    fn set(&mut self, fields: &NameSet, at: u32, name: &Name) -> Result<(), AllocError>
        ensures { OnOk result (self.new ≡ set_one fields.now self.old (record { at = at; name = name.now.text })) }
    {
        let name = name.text.as_slice();
        if !fields.has(name) || self.set.has(name) {
            let refusal = Refusal {
                rule: Rule::B9,
                file: self.file,
                at,
            };
            self.first = sooner(self.first, refusal);
        }
        self.set.put(name)
    }

    #[tactic(auto, unfolding(crate::specs::Steps::set_all))]
    fn set_at(
        &mut self,
        fields: &NameSet,
        place: Option<Span>,
        name: &Name,
    ) -> Result<(), AllocError>
        ensures { OnOk result (self.new ≡ set_all fields.now self.old (spec.set_at place name.now)) }
    {
        match place {
            Some(span) => self.set(fields, span.from, name),
            None => Ok(()),
        }
    }

    fn set_required(&mut self, fields: &NameSet, parameters: &[Parameter]) -> Result<(), AllocError>
        ensures { OnOk result (self.new ≡ set_all fields.now self.old (flat_map spec.set_by_parameter parameters.now)) }
    {
        for parameter in parameters {
            self.set_at(fields, parameter.this, &parameter.name)?;
        }
        Ok(())
    }

    fn set_optional_one(
        &mut self,
        fields: &NameSet,
        parameter: &OptionalParameter,
    ) -> Result<(), AllocError>
        ensures { OnOk result (self.new ≡ set_all fields.now self.old (spec.set_by_optional parameter.now)) }
    {
        match parameter {
            OptionalParameter::WithoutDefault(parameter) => {
                self.set_at(fields, parameter.this, &parameter.name)
            }
            OptionalParameter::WithDefault(parameter, _) => {
                self.set_at(fields, parameter.this, &parameter.name)
            }
        }
    }

    fn set_optional(
        &mut self,
        fields: &NameSet,
        parameters: &[OptionalParameter],
    ) -> Result<(), AllocError>
        ensures { OnOk result (self.new ≡ set_all fields.now self.old (flat_map spec.set_by_optional parameters.now)) }
    {
        for parameter in parameters {
            self.set_optional_one(fields, parameter)?;
        }
        Ok(())
    }

    #[tactic(auto, unfolding(crate::specs::Steps::set_all))]
    fn initialise(&mut self, fields: &NameSet, initialiser: &Initialiser) -> Result<(), AllocError>
        ensures { OnOk result (self.new ≡ set_all fields.now self.old (spec.set_by_initialiser initialiser.now)) }
    {
        match initialiser {
            Initialiser::Field(span, name, _) => self.set(fields, span.from, name),
            Initialiser::Super(_, _, _) => Ok(()),
        }
    }

    fn initialise_all(
        &mut self,
        fields: &NameSet,
        initialisers: &[Initialiser],
    ) -> Result<(), AllocError>
        ensures { OnOk result (self.new ≡ set_all fields.now self.old (flat_map spec.set_by_initialiser initialisers.now)) }
    {
        for initialiser in initialisers {
            self.initialise(fields, initialiser)?;
        }
        Ok(())
    }

    #[tactic(auto, using(crate::proofs::Sets::set_in_order))]
    fn construct(&mut self, fields: &NameSet, constructor: &Constructor) -> Result<(), AllocError>
        ensures { OnOk result (self.new ≡ set_all fields.now self.old (spec.settings constructor.now)) }
    {
        self.set_required(fields, constructor.parameters.required.as_slice())?;
        self.set_optional(fields, constructor.parameters.optional.as_slice())?;
        self.initialise_all(fields, constructor.initialisers.as_slice())
    }
}

/// The first of the broken rule that was found before, if any, and of those that this constructor breaks, of a class with
/// these fields. Takes expected time linear in what it sets.
#[tactic(auto, using(crate::proofs::Sets::first_wrong))]
pub fn with_constructor(
    alloc: Global,
    found: Option<Refusal>,
    file: u32,
    fields: &NameSet,
    constructor: &Constructor,
) -> Result<Option<Refusal>, AllocError>
    ensures { IfOk result (λ first. first ≡ first_with found (faults file (spec.wrong_settings fields.now [] (spec.settings constructor.now)))) }
{
    let mut constructing = Constructing {
        file,
        first: found,
        set: NameSet::new(alloc),
    };
    constructing.construct(fields, constructor)?;
    Ok(constructing.first)
}
