//! The constructors of a class.
ghost use Rattle.std.specs.Prelude.{◌≡◌, IfOk, OnOk, codes};
ghost use Rattle.std.specs.List.{list_any};
ghost use Rattle.std.specs.Str.{bytes_eq};
ghost use Rattle.class_heads.specs.Bodies.{class_of_node};
ghost use Rattle.class_heads.specs.Sources.{written_in};
ghost use Rattle.library_scopes.specs.Names.{is_among};
ghost use Rattle.class_members.specs.Constructions as spec;
ghost use Rattle.class_members.specs.Steps.{with_written};

use crate::members::Construction;
use crate::program::ProgramClasses;
use class_heads::bodies::class_of;
use class_heads::nodes::ClassNode;
use dart_grammar::declarations::{Class, Member};
use dart_grammar::trees::Body;
use library_scopes::reading::one_more;
use sqlite_items::{Items, at};
use std::alloc::{AllocError, Global};

// ---- those that a body has

/// Adds a member of this number of the body of a class, if it is a constructor.
fn push_written(
    constructions: &mut Items<Construction>,
    class: u32,
    number: u32,
    member: &Member,
) -> Result<(), AllocError>
    ensures { OnOk result (constructions.new ≡ with_written class number constructions.old member.now) }
{
    match member {
        Member::Constructor(_) => constructions.push(Construction {
            class,
            member: Some(number),
        }),
        _ => Ok(()),
    }
}

/// The constructors among the members of the body of a class.
#[tactic(auto, using(crate::proofs::Constructed::written_step))]
fn written_constructions(
    alloc: Global,
    class: u32,
    members: &[Member],
) -> Result<Items<Construction>, AllocError>
    ensures { IfOk result (λ constructions. constructions ≡ spec.written_from class 0 members.now) }
{
    let mut constructions = Items::new(alloc);
    let mut number = 0;
    for member in members {
        push_written(&mut constructions, class, number, member)?;
        number = one_more(number)?;
    }
    Ok(constructions)
}

fn is_native(body: &Body) -> bool
    ensures { result ≡ spec.is_native body.now }
{
    matches!(body, Body::Native(_))
}

fn is_native_member(member: &Member) -> bool
    ensures { result ≡ spec.is_native_member member.now }
{
    match member {
        Member::Function(_, function) => is_native(&function.body),
        Member::Getter(_, getter) => is_native(&getter.body),
        Member::Setter(_, setter) => is_native(&setter.body),
        Member::Fields(_, _, _) => false,
        Member::Operator(operator) => is_native(&operator.body),
        Member::Constructor(constructor) => is_native(&constructor.body),
    }
}

fn has_native_member(class: &Class) -> bool
    ensures { result ≡ list_any spec.is_native_member class.now.members }
{
    class
        .members
        .as_slice()
        .iter()
        .any(|member| is_native_member(member))
}

/// Whether this is the name of a class of the prelude that has no constructor though it has no native member.
fn is_bare_name(name: &[u16]) -> bool
    ensures { result ≡ is_among name.now spec.bare_names }
{
    // `Null`, `bool`, `num`, `Function`
    name == [78, 117, 108, 108].as_slice()
        || name == [98, 111, 111, 108].as_slice()
        || name == [110, 117, 109].as_slice()
        || name == [70, 117, 110, 99, 116, 105, 111, 110].as_slice()
}

fn is_object(name: &[u16]) -> bool
    ensures { result ≡ bytes_eq name.now (codes "Object") }
{
    name == [79, 98, 106, 101, 99, 116].as_slice()
}

/// Whether a class of this file has no constructor where none is written.
pub fn lacks_implicit(file: u32, class: &Class) -> bool
    ensures { result ≡ spec.lacks_implicit file class.now }
{
    let name = class.name.text.as_slice();
    file == 0 && (is_bare_name(name) || (has_native_member(class) && !is_object(name)))
}

#[tactic(auto, using(crate::proofs::Constructed::some_written))]
fn or_implicit(class: u32, written: Items<Construction>) -> Result<Items<Construction>, AllocError>
    ensures { IfOk result (λ constructions. constructions ≡ spec.or_implicit class written) }
{
    if !written.is_empty() {
        return Ok(written);
    }
    let mut constructions = written;
    constructions.push(Construction {
        class,
        member: None,
    })?;
    Ok(constructions)
}

/// The constructors of a class of this file that has this body.
fn body_constructions(
    alloc: Global,
    file: u32,
    class: u32,
    body: &Class,
) -> Result<Items<Construction>, AllocError>
    ensures { IfOk result (λ constructions. constructions ≡ spec.body_constructions file class body.now) }
{
    let written = written_constructions(alloc, class, body.members.as_slice())?;
    if lacks_implicit(file, body) {
        Ok(written)
    } else {
        or_implicit(class, written)
    }
}

// ---- those that a class has

/// The first class without a mixin from a class upwards, through superclasses alone. None where there is none. Takes time in
/// the length of that way.
#[tactic(auto, unfolding(crate::specs::Constructions::base))]
pub fn base(classes: &[ClassNode], class: u32) -> Option<u32>
    ensures { result ≡ spec.base classes.now class }
{
    let mut class = class;
    for _class in classes {
        let node = at(classes, class as usize)?;
        match node.mixin {
            Some(_) => class = node.superclass?,
            None => return Some(class),
        }
    }
    None
}

/// Those of a class without a mixin, which is this one.
fn node_constructions(
    alloc: Global,
    program: &ProgramClasses<'_>,
    class: u32,
    node: &ClassNode,
) -> Result<Items<Construction>, AllocError>
    ensures { IfOk result (λ constructions. constructions ≡ spec.constructions_of node.now.file class (class_of_node (written_in program.now) node.now)) }
{
    match class_of(program.written(), node) {
        Some(body) => body_constructions(alloc, node.file, class, body),
        None => Ok(Items::new(alloc)),
    }
}

/// Those of a class without a mixin, by its number.
#[tactic(auto, using(crate::proofs::Constructed::at_none))]
fn constructions_at(
    alloc: Global,
    program: &ProgramClasses<'_>,
    class: u32,
) -> Result<Items<Construction>, AllocError>
    ensures { IfOk result (λ constructions. constructions ≡ spec.constructions_at program.now class) }
{
    match at(program.classes(), class as usize) {
        Some(node) => node_constructions(alloc, program, class, node),
        None => Ok(Items::new(alloc)),
    }
}

/// The constructors of a class. One with a mixin has one for each of its superclass.
#[tactic(auto, unfolding(crate::specs::Constructions::constructions))]
pub fn constructions(
    alloc: Global,
    program: &ProgramClasses<'_>,
    class: u32,
) -> Result<Items<Construction>, AllocError>
    ensures { IfOk result (λ constructions. constructions ≡ spec.constructions program.now class) }
{
    match base(program.classes(), class) {
        Some(base) => constructions_at(alloc, program, base),
        None => Ok(Items::new(alloc)),
    }
}
