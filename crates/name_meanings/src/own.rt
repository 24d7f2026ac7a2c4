//! What a class declares itself under a name.
ghost use Rattle.std.specs.Prelude.{◌≡◌, ◌==◌, if◌then◌else◌, None, Some, option_and_then, option_map, slice_get};
ghost use Rattle.std.specs.Option.{option_copied};
ghost use Rattle.dart_program.specs.Declares.{declared_by_member, variable_name};
ghost use Rattle.library_scopes.specs.declared.named.Side.TheVariants as side_variants;
ghost use Rattle.member_tables.specs.Lookup as lookup;
ghost use Rattle.name_meanings.specs.Own as spec;

use class_heads::nodes::ClassNode;
use dart_grammar::declarations::Member;
use dart_grammar::trees::{Body, Name, Variables};
use library_scopes::named::Side;
use library_scopes::reading::name_of_variable;
use selectors::collecting::is_public;
use sqlite_items::at;

/// A member that a class declares itself.
#[derive(Clone, Copy, Debug, PartialEq, Eq)]
pub struct OwnMember {
    pub number: u32,
    pub is_static: bool,
    /// Whether it is a method, a getter or a setter without a body.
    pub lacks_body: bool,
}

/// What is declared alone has number 0.
fn if_first(number: u32, name: &Name) -> Option<&Name>
    ensures { option_copied result ≡ (if number == 0 then Some name.now else None) }
{
    if number == 0 { Some(name) } else { None }
}

fn field_name(fields: &Variables, number: u32) -> Option<&Name>
    ensures { option_copied result ≡ option_map variable_name (slice_get fields.now.items number) }
{
    Some(name_of_variable(at(fields.items.as_slice(), number as usize)?))
}

fn value_name(member: &Member, number: u32) -> Option<&Name>
    ensures { option_copied result ≡ option_and_then (spec.name_on side_variants.Value) (slice_get (declared_by_member member.now) number) }
{
    match member {
        Member::Function(_, function) => if_first(number, &function.name),
        Member::Getter(_, getter) => if_first(number, &getter.name),
        Member::Fields(_, _, fields) => field_name(fields, number),
        _ => None,
    }
}

fn setting_name(member: &Member, number: u32) -> Option<&Name>
    ensures { option_copied result ≡ option_and_then (spec.name_on side_variants.Setting) (slice_get (declared_by_member member.now) number) }
{
    match member {
        Member::Setter(_, setter) => if_first(number, &setter.name),
        Member::Fields(_, _, fields) => {
            if fields.is_final {
                None
            } else {
                field_name(fields, number)
            }
        }
        _ => None,
    }
}

/// The name under which it is declared that a member of a body declares under this number, for values or for what takes one.
pub fn name_on(side: Side, member: &Member, number: u32) -> Option<&Name>
    ensures { option_copied result ≡ option_and_then (spec.name_on side) (slice_get (declared_by_member member.now) number) }
{
    match side {
        Side::Value => value_name(member, number),
        Side::Setting => setting_name(member, number),
    }
}

/// Whether a member has a body.
pub fn has_body(body: &Body) -> bool
    ensures { result ≡ lookup.has_body body.now }
{
    match body {
        Body::Abstract => false,
        _ => true,
    }
}

/// Whether a name that a class declares is seen in this file.
pub fn is_seen(file: u32, name: &[u16], class: &ClassNode) -> bool
    ensures { result ≡ spec.is_seen file name.now (Some class.now) }
{
    is_public(name) || file == class.file
}
