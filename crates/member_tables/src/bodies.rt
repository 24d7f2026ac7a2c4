//! The numbers of the names under which a member is found, where it is declared.
ghost use Rattle.std.specs.Prelude.{◌≡◌, Some, IfOk};
ghost use Rattle.std.specs.Option.{option_copied};
ghost use Rattle.member_tables.specs.Keys.{declared_keys, keys_in, member_keys};
ghost use Rattle.member_tables.specs.Lookup as spec;
ghost use Rattle.class_heads.specs.Bodies.{class_at};

use crate::keys::{Keys, keys_of};
use class_heads::bodies::class_of;
use class_members::members::{MemberKind, MemberNode, Place};
use class_members::program::ProgramClasses;
use dart_grammar::declarations::Class;
use selectors::Selectors;
use sqlite_items::at;
use std::alloc::AllocError;

/// The body that is written of a class.
#[tactic(auto, unfolding(class_heads::specs::Bodies::class_at))]
fn body_at<'a>(program: &ProgramClasses<'a>, class: u32) -> Option<&'a Class>
    ensures { option_copied result ≡ class_at program.now class }
{
    class_of(program.written(), at(program.classes(), class as usize)?)
}

/// Of what is declared at a place of a body.
fn keys_in_body(
    selectors: &Selectors,
    file: u32,
    body: &Class,
    place: Place,
) -> Result<Keys, AllocError>
    ensures { IfOk result (λ keys. keys_in keys ≡ declared_keys selectors.now file (spec.declared_at (Some body.now) place)) }
{
    let Some(number) = place.member else {
        return Ok(Keys::Nothing);
    };
    match at(body.members.as_slice(), number as usize) {
        Some(member) => keys_of(selectors, file, member, place.variable),
        None => Ok(Keys::Nothing),
    }
}

/// Of what is declared at a place of a class.
fn keys_in_class(
    program: &ProgramClasses<'_>,
    selectors: &Selectors,
    file: u32,
    class: u32,
    place: Place,
) -> Result<Keys, AllocError>
    ensures { IfOk result (λ keys. keys_in keys ≡ declared_keys selectors.now file (spec.declared_at (class_at program.now class) place)) }
{
    match body_at(program, class) {
        Some(body) => keys_in_body(selectors, file, body, place),
        None => Ok(Keys::Nothing),
    }
}

fn keys_by_kind(
    program: &ProgramClasses<'_>,
    selectors: &Selectors,
    file: u32,
    class: u32,
    kind: MemberKind,
) -> Result<Keys, AllocError>
    ensures { IfOk result (λ keys. keys_in keys ≡ declared_keys selectors.now file (spec.declared_by_kind program.now class kind)) }
{
    match kind {
        MemberKind::Declared(place) => keys_in_class(program, selectors, file, class, place),
        _ => Ok(Keys::Nothing),
    }
}

/// Of a member. One outside classes has none, and neither has one that is not written.
pub fn keys_of_member(
    program: &ProgramClasses<'_>,
    selectors: &Selectors,
    member: &MemberNode,
) -> Result<Keys, AllocError>
    ensures { IfOk result (λ keys. keys_in keys ≡ member_keys program.now selectors.now member.now) }
{
    match member.class {
        Some(class) => keys_by_kind(program, selectors, member.file, class, member.kind),
        None => Ok(Keys::Nothing),
    }
}
