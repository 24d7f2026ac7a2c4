//! The calls of constructors of the superclass that the constructors of a class make.
ghost use Rattle.std.specs.Prelude.{◌≡◌, ◌++◌, slice_get, Some, IfOk, OnOk};
ghost use Rattle.std.specs.List.{list_any, flat_map};
ghost use Rattle.body_rules.specs.Constructors as constructors;
ghost use Rattle.super_rules.specs.Calls as spec;

use crate::above::has_constructor;
use class_members::constructions::lacks_implicit;
use dart_grammar::declarations::{Class, Constructor, Initialiser, Member};
use dart_grammar::trees::Name;
use dart_sites::lent::LentSlice;
use sqlite_items::Items;
use std::alloc::{AllocError, Global};

/// A call: where it stands, the name of the constructor behind the dot, which is empty where there is none, and how many
/// arguments are handed on.
#[derive(Drop)]
pub struct SuperCall<'a> {
    pub at: u32,
    pub name: LentSlice<'a, u16>,
    pub count: usize,
}

fn name_text(name: &Option<Name>) -> &[u16]
    ensures { result.now ≡ spec.name_text name.now }
{
    match name {
        Some(name) => name.text.as_slice(),
        None => &[],
    }
}

/// The name at a place among names; an empty one where there is none.
pub fn name_at(names: &[Name], place: usize) -> &[u16]
    ensures { result.now ≡ spec.name_text (slice_get names.now place) }
{
    match names.get(place) {
        Some(name) => name.text.as_slice(),
        None => &[],
    }
}

fn is_super_call(initialiser: &Initialiser) -> bool
    ensures { result ≡ constructors.is_super_call initialiser.now }
{
    matches!(initialiser, Initialiser::Super(_, _, _))
}

fn has_super_call(initialisers: &[Initialiser]) -> bool
    ensures { result ≡ list_any constructors.is_super_call initialisers.now }
{
    initialisers
        .iter()
        .any(|initialiser| is_super_call(initialiser))
}

fn push_written<'a>(
    calls: &mut Items<SuperCall<'a>>,
    initialiser: &'a Initialiser,
) -> Result<(), AllocError>
    ensures { OnOk result (calls.new ≡ calls.old ++ spec.written_by initialiser.now) }
{
    match initialiser {
        Initialiser::Super(span, name, arguments) => calls.push(SuperCall {
            at: span.from,
            name: LentSlice::new(name_text(name)),
            count: arguments.items.as_slice().len(),
        }),
        Initialiser::Field(_, _, _) => Ok(()),
    }
}

fn push_all_written<'a>(
    calls: &mut Items<SuperCall<'a>>,
    initialisers: &'a [Initialiser],
) -> Result<(), AllocError>
    ensures { OnOk result (calls.new ≡ calls.old ++ flat_map spec.written_by initialisers.now) }
{
    for initialiser in initialisers {
        push_written(calls, initialiser)?;
    }
    Ok(())
}

/// Adds the call that is made where none is written; it stands at a name.
fn push_implied<'a>(calls: &mut Items<SuperCall<'a>>, name: &Name) -> Result<(), AllocError>
    ensures { OnOk result (calls.new ≡ calls.old ++ spec.implied_at (Some name.now)) }
{
    calls.push(SuperCall {
        at: name.span.from,
        name: LentSlice::new(&[]),
        count: 0,
    })
}

fn push_first_implied<'a>(
    calls: &mut Items<SuperCall<'a>>,
    names: &[Name],
) -> Result<(), AllocError>
    ensures { OnOk result (calls.new ≡ calls.old ++ spec.implied_at (slice_get names.now 0)) }
{
    match names.get(0) {
        Some(name) => push_implied(calls, name),
        None => Ok(()),
    }
}

fn push_calls_by<'a>(
    calls: &mut Items<SuperCall<'a>>,
    constructor: &'a Constructor,
) -> Result<(), AllocError>
    ensures { OnOk result (calls.new ≡ calls.old ++ spec.calls_by constructor.now) }
{
    let initialisers = constructor.initialisers.as_slice();
    if has_super_call(initialisers) {
        push_all_written(calls, initialisers)
    } else {
        push_first_implied(calls, constructor.names.as_slice())
    }
}

fn push_calls_in<'a>(calls: &mut Items<SuperCall<'a>>, member: &'a Member) -> Result<(), AllocError>
    ensures { OnOk result (calls.new ≡ calls.old ++ spec.calls_in member.now) }
{
    match member {
        Member::Constructor(constructor) => push_calls_by(calls, constructor),
        _ => Ok(()),
    }
}

fn push_all_calls_in<'a>(
    calls: &mut Items<SuperCall<'a>>,
    members: &'a [Member],
) -> Result<(), AllocError>
    ensures { OnOk result (calls.new ≡ calls.old ++ flat_map spec.calls_in members.now) }
{
    for member in members {
        push_calls_in(calls, member)?;
    }
    Ok(())
}

fn push_implied_in<'a>(
    calls: &mut Items<SuperCall<'a>>,
    file: u32,
    class: &'a Class,
) -> Result<(), AllocError>
    ensures { OnOk result (calls.new ≡ calls.old ++ spec.implied_in file class.now) }
{
    if lacks_implicit(file, class) {
        Ok(())
    } else {
        push_implied(calls, &class.name)
    }
}

/// All calls of a class in the file of this number, in the order in which they stand: those that its constructors make, written or
/// not, and that of the constructor that it has where none is written.
pub fn calls(alloc: Global, file: u32, class: &Class) -> Result<Items<SuperCall<'_>>, AllocError>
    ensures { IfOk result (λ calls. calls ≡ spec.calls file class.now) }
{
    let mut calls = Items::new(alloc);
    if has_constructor(class) {
        push_all_calls_in(&mut calls, class.members.as_slice())?;
    } else {
        push_implied_in(&mut calls, file, class)?;
    }
    Ok(calls)
}
