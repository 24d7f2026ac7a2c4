//! The constructors of classes, by name.
ghost use Rattle.std.specs.Prelude.{◌≡◌, [], map, Some, IfOk, OnOk};
ghost use Rattle.std.specs.Option.{option_copied};
ghost use Rattle.std.specs.List.{list_any};
ghost use Rattle.class_heads.specs.Rules as rules;
ghost use Rattle.class_heads.specs.Sources.{classes_in, written_in};
ghost use Rattle.super_rules.specs.Takers as takers;
ghost use Rattle.super_rules.specs.Tables as spec;

use crate::calls::{SuperCall, name_at};
use class_heads::bodies::class_of;
use class_heads::nodes::ClassNode;
use class_heads::written::WrittenClass;
use class_members::constructions::{base, lacks_implicit};
use class_members::program::ProgramClasses;
use dart_grammar::declarations::{Class, Constructor, Member};
use dart_sites::lent::Lent;
use library_scopes::reading::one_more;
use selectors::collecting::is_public;
use selectors::numbers::Numbers;
use sqlite_items::{Items, at};
use std::alloc::{AllocError, Global};

fn constructor_name(constructor: &Constructor) -> &[u16]
    ensures { result.now ≡ takers.constructor_name constructor.now }
{
    name_at(constructor.names.as_slice(), 1)
}

fn put_first(names: &mut Numbers, name: &[u16], number: u32) -> Result<(), AllocError>
    ensures { OnOk result (names.new ≡ spec.put_first names.old name.now number) }
{
    if names.has(name) {
        Ok(())
    } else {
        names.put(name, number)
    }
}

fn put_member(names: &mut Numbers, number: u32, member: &Member) -> Result<(), AllocError>
    ensures { OnOk result (names.new ≡ spec.with_member names.old number member.now) }
{
    match member {
        Member::Constructor(constructor) => {
            put_first(names, constructor_name(constructor), number)
        }
        _ => Ok(()),
    }
}

/// The names of the constructors among members, each with the number of the first one.
fn names_of(alloc: Global, members: &[Member]) -> Result<Numbers, AllocError>
    ensures { IfOk result (λ names. names ≡ spec.with_members [] 0 members.now) }
{
    let mut names = Numbers::new(alloc);
    let mut number = 0;
    for member in members {
        put_member(&mut names, number, member)?;
        number = one_more(number)?;
    }
    Ok(names)
}

fn names_of_class(
    alloc: Global,
    written: &[WrittenClass<'_>],
    class: &ClassNode,
) -> Result<Numbers, AllocError>
    ensures { IfOk result (λ names. names ≡ spec.table_of written.now class.now) }
{
    match class_of(written, class) {
        Some(body) => names_of(alloc, body.members.as_slice()),
        None => Ok(Numbers::new(alloc)),
    }
}

/// The constructors of all classes, by the number of the class.
pub fn all_names(alloc: Global, program: &ProgramClasses<'_>) -> Result<Items<Numbers>, AllocError>
    ensures { IfOk result (λ tables. tables ≡ map (spec.table_of (written_in program.now)) (classes_in program.now)) }
{
    let mut tables = Items::new(alloc);
    for class in program.classes() {
        tables.push(names_of_class(alloc, program.written(), class)?)?;
    }
    Ok(tables)
}

/// The body of a class without a mixin: its file, what is written, whether a constructor is, and those by name.
#[derive(Drop)]
pub struct Above<'a> {
    pub file: u32,
    pub class: Lent<'a, Class>,
    pub is_written: bool,
    pub names: Lent<'a, Numbers>,
}

fn is_constructor(member: &Member) -> bool
    ensures { result ≡ rules.is_constructor member.now }
{
    matches!(member, Member::Constructor(_))
}

/// Whether a constructor is written in the body.
pub fn has_constructor(class: &Class) -> bool
    ensures { result ≡ list_any rules.is_constructor class.now.members }
{
    class
        .members
        .as_slice()
        .iter()
        .any(|member| is_constructor(member))
}

/// The constructors of a class: those of the first class without a mixin from it upwards, if there is one that has a body.
#[tactic(auto, unfolding(crate::specs::Tables::above_base))]
pub fn above_base<'a>(
    program: &ProgramClasses<'a>,
    tables: &'a [Numbers],
    class: u32,
) -> Option<Above<'a>>
    ensures { result ≡ spec.above_base program.now tables.now class }
{
    let base = base(program.classes(), class)?;
    let node = at(program.classes(), base as usize)?;
    let body = class_of(program.written(), node)?;
    let names = at(tables, base as usize)?;
    Some(Above {
        file: node.file,
        class: Lent::new(body),
        is_written: has_constructor(body),
        names: Lent::new(names),
    })
}

fn constructor_of(member: &Member) -> Option<&Constructor>
    ensures { option_copied result ≡ spec.constructor_of member.now }
{
    match member {
        Member::Constructor(constructor) => Some(constructor),
        _ => None,
    }
}

fn constructor_at(members: &[Member], number: u32) -> Option<&Constructor>
    ensures { option_copied result ≡ spec.constructor_at members.now number }
{
    constructor_of(at(members, number as usize)?)
}

fn named_in<'a>(names: &Numbers, members: &'a [Member], name: &[u16]) -> Option<&'a Constructor>
    ensures { option_copied result ≡ spec.named_in names.now members.now name.now }
{
    constructor_at(members, names.find(name)?)
}

fn takes_count(count: usize, constructor: &Constructor) -> bool
    ensures { result ≡ takers.takes_count count (Some constructor.now) }
{
    let required = constructor.parameters.required.as_slice().len();
    let optional = constructor.parameters.optional.as_slice().len();
    required <= count && count - required <= optional
}

fn takes_named(names: &Numbers, members: &[Member], call: &SuperCall<'_>) -> bool
    ensures { result ≡ takers.takes_count call.now.count (spec.named_in names.now members.now call.now.name) }
{
    match named_in(names, members, call.name.get()) {
        Some(constructor) => takes_count(call.count, constructor),
        None => false,
    }
}

fn implied_takes(file: u32, class: &Class, call: &SuperCall<'_>) -> bool
    ensures { result ≡ takers.implied_takes file class.now call.now }
{
    call.name.get().is_empty() && call.count == 0 && !lacks_implicit(file, class)
}

fn is_seen(from: u32, file: u32, name: &[u16]) -> bool
    ensures { result ≡ takers.is_seen from file name.now }
{
    is_public(name) || from == file
}

impl Above<'_> {
    /// Whether one of its constructors takes a call that stands in this file. Takes expected constant time where one is written.
    pub fn takes(&self, from: u32, call: &SuperCall<'_>) -> bool
        ensures { result ≡ spec.above_takes from self.now call.now }
    {
        let class = self.class.get();
        if self.is_written {
            is_seen(from, self.file, call.name.get())
                && takes_named(self.names.get(), class.members.as_slice(), call)
        } else {
            implied_takes(self.file, class, call)
        }
    }
}
