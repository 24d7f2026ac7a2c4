//! The names that all classes declare themselves.
ghost use Rattle.std.specs.Prelude.{◌≡◌, if◌then◌else◌, [], map, Some, option_and_then, slice_get, IfOk, OnOk};
ghost use Rattle.std.specs.Option.{option_copied};
ghost use Rattle.dart_program.specs.Declares.{declared_by_member};
ghost use Rattle.class_heads.specs.Bodies.{class_at};
ghost use Rattle.class_members.specs.Members as members_spec;
ghost use Rattle.member_tables.specs.Lookup as lookup;
ghost use Rattle.name_meanings.specs.Own.{declared};
ghost use Rattle.name_meanings.specs.Tables as spec;

use crate::own::{OwnMember, has_body, name_on};
use class_heads::bodies::class_of;
use class_members::members::{MemberKind, MemberNode, Place};
use class_members::owners::Owners;
use class_members::program::ProgramClasses;
use dart_grammar::declarations::{Class, Member};
use dart_grammar::trees::Name;
use dart_sites::lent::Lent;
use library_scopes::named::Side;
use selectors::numbers::Numbers;
use sqlite_items::{Items, at};
use std::alloc::{AllocError, Global};

/// A member of a body, and the number of a variable among those that it declares; else 0.
#[derive(Drop)]
pub struct WrittenMember<'a> {
    pub member: Lent<'a, Member>,
    pub variable: u32,
}

/// Whether a member is static, and whether it is a method, a getter or a setter without a body.
#[derive(Clone, Copy, Debug, PartialEq, Eq)]
pub struct Facts {
    pub is_static: bool,
    pub lacks_body: bool,
}

const NO_FACTS: Facts = Facts {
    is_static: false,
    lacks_body: false,
};

/// The names of a class, each with the number of the first member that has it.
#[derive(Drop)]
pub struct OwnNames {
    pub values: Numbers,
    pub settings: Numbers,
}

impl OwnNames {
    /// Those of no members.
    fn new(alloc: Global) -> OwnNames
        ensures { result ≡ record { values = []; settings = [] } }
    {
        OwnNames {
            values: Numbers::new(alloc),
            settings: Numbers::new(alloc),
        }
    }

    /// Those for values, or those for what takes one.
    pub fn on(&self, side: Side) -> &Numbers
        ensures { result.now ≡ spec.names_on side self.now }
    {
        match side {
            Side::Value => &self.values,
            Side::Setting => &self.settings,
        }
    }
}

// ---- what is written of a member

/// The body that is written of a class.
#[tactic(auto, unfolding(class_heads::specs::Bodies::class_at))]
fn body_at<'a>(program: &ProgramClasses<'a>, class: u32) -> Option<&'a Class>
    ensures { option_copied result ≡ class_at program.now class }
{
    class_of(program.written(), at(program.classes(), class as usize)?)
}

fn member_in<'a>(body: &'a Class, place: Place) -> Option<WrittenMember<'a>>
    ensures { option_and_then spec.declared_of result ≡ lookup.declared_at (Some body.now) place }
{
    let member = at(body.members.as_slice(), place.member? as usize)?;
    Some(WrittenMember {
        member: Lent::new(member),
        variable: place.variable,
    })
}

fn member_of_class<'a>(
    program: &ProgramClasses<'a>,
    class: u32,
    kind: MemberKind,
) -> Option<WrittenMember<'a>>
    ensures { option_and_then spec.declared_of result ≡ lookup.declared_by_kind program.now class kind }
{
    match kind {
        MemberKind::Declared(place) => member_in(body_at(program, class)?, place),
        _ => None,
    }
}

/// What is written of a member; none outside classes, and where nothing is written.
fn written_member<'a>(
    program: &ProgramClasses<'a>,
    member: &MemberNode,
) -> Option<WrittenMember<'a>>
    ensures { option_and_then spec.declared_of result ≡ lookup.declared_by_node program.now member.now }
{
    member_of_class(program, member.class?, member.kind)
}

// ---- facts

fn facts_if(is_declared: bool, is_static: bool, lacks_body: bool) -> Facts
    ensures { result ≡ (if is_declared then record { is_static = is_static; lacks_body = lacks_body } else spec.no_facts) }
{
    if is_declared {
        Facts {
            is_static,
            lacks_body,
        }
    } else {
        NO_FACTS
    }
}

/// Of what a member of a body declares under this number.
fn facts_of(member: &Member, number: u32) -> Facts
    ensures { result ≡ spec.facts_of (slice_get (declared_by_member member.now) number) }
{
    match member {
        Member::Function(is_static, function) => {
            facts_if(number == 0, *is_static, !has_body(&function.body))
        }
        Member::Getter(is_static, getter) => {
            facts_if(number == 0, *is_static, !has_body(&getter.body))
        }
        Member::Setter(is_static, setter) => {
            facts_if(number == 0, *is_static, !has_body(&setter.body))
        }
        Member::Fields(is_static, _, fields) => {
            facts_if((number as usize) < fields.items.len(), *is_static, false)
        }
        _ => NO_FACTS,
    }
}

fn node_facts(program: &ProgramClasses<'_>, member: &MemberNode) -> Facts
    ensures { result ≡ spec.node_facts program.now member.now }
{
    match written_member(program, member) {
        Some(written) => facts_of(written.member.get(), written.variable),
        None => NO_FACTS,
    }
}

/// Whether each member is static, and whether it lacks a body.
pub fn all_facts(
    alloc: Global,
    program: &ProgramClasses<'_>,
    members: &[MemberNode],
) -> Result<Items<Facts>, AllocError>
    ensures { IfOk result (λ facts. facts ≡ map (spec.node_facts program.now) members.now) }
{
    let mut facts = Items::new(alloc);
    for member in members {
        facts.push(node_facts(program, member))?;
    }
    Ok(facts)
}

// ---- names

fn put_first(names: &mut Numbers, name: Option<&Name>, member: u32) -> Result<(), AllocError>
    ensures { OnOk result (names.new ≡ spec.put_first names.old (option_copied name.entry) member) }
{
    match name {
        Some(name) if !names.has(name.text.as_slice()) => names.put(name.text.as_slice(), member),
        _ => Ok(()),
    }
}

fn put_written(
    names: &mut Numbers,
    side: Side,
    member: u32,
    written: &WrittenMember<'_>,
) -> Result<(), AllocError>
    ensures { OnOk result (names.new ≡ spec.put_declared side names.old member (spec.declared_of written.now)) }
{
    put_first(
        names,
        name_on(side, written.member.get(), written.variable),
        member,
    )
}

fn put_member(
    names: &mut OwnNames,
    program: &ProgramClasses<'_>,
    members: &[MemberNode],
    member: u32,
) -> Result<(), AllocError>
    requires members { members.now ≡ members_spec.members program.now }
    ensures { OnOk result (names.new ≡ spec.put_both program.now names.old member) }
{
    let Some(node) = at(members, member as usize) else {
        return Ok(());
    };
    let Some(written) = written_member(program, node) else {
        return Ok(());
    };
    put_written(&mut names.values, Side::Value, member, &written)?;
    put_written(&mut names.settings, Side::Setting, member, &written)
}

fn names_of(
    alloc: Global,
    program: &ProgramClasses<'_>,
    members: &[MemberNode],
    own: &[u32],
) -> Result<OwnNames, AllocError>
    requires members { members.now ≡ members_spec.members program.now }
    ensures { IfOk result (λ names. names ≡ spec.names_of program.now own.now) }
{
    let mut names = OwnNames::new(alloc);
    for member in own {
        put_member(&mut names, program, members, *member)?;
    }
    Ok(names)
}

/// The names that each class declares itself. Takes expected time linear in the members of classes.
pub fn all_names(
    alloc: Global,
    program: &ProgramClasses<'_>,
    members: &[MemberNode],
    owners: &Owners,
) -> Result<Items<OwnNames>, AllocError>
    requires members { members.now ≡ members_spec.members program.now }
    ensures { IfOk result (λ names. names ≡ map (spec.names_of program.now) owners.now.of_classes) }
{
    let mut names = Items::new(alloc);
    for own in owners.of_classes.as_slice() {
        names.push(names_of(alloc, program, members, own.as_slice())?)?;
    }
    Ok(names)
}

// ---- look-ups in them

fn own_by(facts: &[Facts], member: u32) -> Option<OwnMember>
    ensures { result ≡ spec.own_by facts.now member }
{
    let facts = at(facts, member as usize)?;
    Some(OwnMember {
        number: member,
        is_static: facts.is_static,
        lacks_body: facts.lacks_body,
    })
}

/// The first member of this name that a class has, in the tables of all.
#[tactic(auto, unfolding(crate::specs::Tables::own_by_class))]
pub fn own_by_class(
    names: &[OwnNames],
    facts: &[Facts],
    class: u32,
    side: Side,
    name: &[u16],
) -> Option<OwnMember>
    ensures { result ≡ spec.own_by_class names.now facts.now class side name.now }
{
    own_by(facts, at(names, class as usize)?.on(side).find(name)?)
}
