//! What a name means before the library is asked.
ghost use Rattle.std.specs.Prelude.{◌≡◌, flat_map};
ghost use Rattle.std.specs.List.{list_any};
ghost use Rattle.dart_program.specs.Declares.{declared_by_member, variable_name};
ghost use Rattle.library_scopes.specs.Uses as spec;

use crate::doubles::operator_text;
use crate::libraries::Library;
use crate::named::Side;
use crate::reading::name_of_variable;
use dart_grammar::declarations::{Class, Member};
use dart_grammar::trees::{Name, Variable};
use dart_sites::Surroundings;
use dart_sites::surroundings::{Owner, Within};

pub fn has_text(text: &[u16], name: &Name) -> bool
    ensures { result ≡ spec.has_text text.now name.now }
{
    text == name.text.as_slice()
}

fn any_has_text(text: &[u16], names: &[Name]) -> bool
    ensures { result ≡ list_any (spec.has_text text.now) names.now }
{
    names.iter().any(|name| has_text(text, name))
}

fn variables_have(text: &[u16], variables: &[Variable]) -> bool
    ensures { result ≡ list_any (λ variable. spec.has_text text.now (variable_name variable)) variables.now }
{
    for variable in variables {
        if has_text(text, name_of_variable(variable)) {
            return true;
        }
    }
    false
}

/// Whether a class has a member of this name by this declaration. Constructors are none.
fn member_has(class: &Name, text: &[u16], member: &Member) -> bool
    ensures { result ≡ list_any (spec.is_member text.now class.now) (declared_by_member member.now) }
{
    match member {
        Member::Function(_, function) => has_text(text, &function.name),
        Member::Getter(_, getter) => has_text(text, &getter.name),
        Member::Setter(_, setter) => has_text(text, &setter.name),
        Member::Fields(_, _, variables) => variables_have(text, variables.items.as_slice()),
        Member::Operator(operator) => text == operator_text(operator),
        Member::Constructor(_) => false,
    }
}

fn class_has(text: &[u16], class: &Class) -> bool
    ensures { result ≡ spec.class_has text.now class.now }
{
    members_have(text, &class.name, class.members.as_slice())
}

fn members_have(text: &[u16], class: &Name, members: &[Member]) -> bool
    ensures { result ≡ list_any (spec.is_member text.now class.now) (flat_map declared_by_member members.now) }
{
    for member in members {
        if member_has(class, text, member) {
            return true;
        }
    }
    false
}

fn is_header(within: &Within<'_>) -> bool
    ensures { result ≡ spec.is_header within.now }
{
    matches!(within, Within::Header)
}

fn owner_has(within: &Within<'_>, text: &[u16], owner: &Owner<'_>) -> bool
    ensures { result ≡ spec.owner_has within.now text.now owner.now }
{
    match owner {
        Owner::Class(class) => {
            let class = class.get();
            !is_header(within) && class_has(text, class)
                || any_has_text(text, class.type_parameters.as_slice())
        }
        Owner::Alias(alias) => any_has_text(text, alias.get().type_parameters.as_slice()),
    }
}

/// Whether a scope or the class around has this name.
pub fn is_nearer(text: &[u16], surroundings: &Surroundings<'_, '_>) -> bool
    ensures { result ≡ spec.is_nearer text.now surroundings.now }
{
    if surroundings.scopes.get().find(text).is_some() {
        return true;
    }
    match surroundings.class.get() {
        Some(owner) => owner_has(surroundings.within.get(), text, owner),
        None => false,
    }
}

/// Whether the library has this name itself.
pub fn is_own(text: &[u16], library: &Library) -> bool
    ensures { result ≡ spec.is_own text.now library.now }
{
    library.own(Side::Value, text).is_some() || library.own(Side::Setting, text).is_some()
}
