//! The fields that an object of a class has by its body.
ghost use Rattle.std.specs.Prelude.{◌≡◌, [], map, IfOk, OnOk};
ghost use Rattle.std.specs.List.{flat_map};
ghost use Rattle.field_rules.specs.Fields as spec;
ghost use Rattle.field_rules.specs.Steps.{with_all};

use dart_grammar::declarations::{Class, Member};
use dart_grammar::trees::Variable;
use library_scopes::names::NameSet;
use library_scopes::reading::name_of_variable;
use std::alloc::{AllocError, Global};

fn put_variables(names: &mut NameSet, variables: &[Variable]) -> Result<(), AllocError>
    ensures { OnOk result (names.new ≡ with_all names.old (map spec.name_of variables.now)) }
{
    for variable in variables {
        names.put(name_of_variable(variable).text.as_slice())?;
    }
    Ok(())
}

fn put_fields(names: &mut NameSet, member: &Member) -> Result<(), AllocError>
    ensures { OnOk result (names.new ≡ with_all names.old (spec.fields_by member.now)) }
{
    match member {
        Member::Fields(false, _, variables) => put_variables(names, variables.items.as_slice()),
        _ => Ok(()),
    }
}

/// The names of the fields, each once. Takes expected time linear in the members of the class.
pub fn fields_of(alloc: Global, class: &Class) -> Result<NameSet, AllocError>
    ensures { IfOk result (λ names. names ≡ with_all [] (spec.fields_of class.now)) }
{
    let mut names = NameSet::new(alloc);
    for member in class.members.as_slice() {
        put_fields(&mut names, member)?;
    }
    Ok(names)
}
