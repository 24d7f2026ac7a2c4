//! The members of programs.

use anyhow::{Context, Result};
use class_heads::nodes::{ClassNode, classes};
use class_heads::written::written;
use class_members::members::{Construction, MemberKind, MemberNode, Place, members};
use class_members::program::ProgramClasses;
use code_units::Files;
use library_scopes::resolve;
use source_programs::program;
use std::alloc::{AllocError, Global};
use std::str::from_utf8;

// How many members the prelude has.
const MEMBERS: usize = 120;

fn class_name(alloc: Global, classes: &[ClassNode], class: u32) -> Result<String> {
    let class = classes.get(class as usize).context("no such class")?;
    let name = class.name.to_utf8()?;
    Ok(String::from_str(alloc, from_utf8(name.as_slice())?)?)
}

// Where it is written.
fn shown_place(alloc: Global, place: Place) -> Result<String, AllocError> {
    let declaration = place.declaration;
    let variable = place.variable;
    match place.member {
        Some(member) => format!(in alloc; "{declaration}/{member}.{variable}"),
        None => format!(in alloc; "{declaration}.{variable}"),
    }
}

// The class, and the number of the constructor in its body, where one is written.
fn shown_construction(
    alloc: Global,
    classes: &[ClassNode],
    construction: Construction,
) -> Result<String> {
    let class = class_name(alloc, classes, construction.class)?;
    match construction.member {
        Some(member) => Ok(format!(in alloc; "forwards to {class}/{member}")?),
        None => Ok(format!(in alloc; "forwards to {class}")?),
    }
}

fn shown_kind(alloc: Global, classes: &[ClassNode], kind: MemberKind) -> Result<String> {
    match kind {
        MemberKind::Declared(place) => Ok(shown_place(alloc, place)?),
        MemberKind::Forwarded(construction) => shown_construction(alloc, classes, construction),
        MemberKind::Implied => Ok(String::from_str(alloc, "implied")?),
    }
}

/// A member: its class, and where it is written or what it is.
pub fn shown_member(alloc: Global, classes: &[ClassNode], member: MemberNode) -> Result<String> {
    let owner = match member.class {
        Some(class) => class_name(alloc, classes, class)?,
        None => String::from_str(alloc, "outside")?,
    };
    let kind = shown_kind(alloc, classes, member.kind)?;
    Ok(format!(in alloc; "{owner}: {kind}")?)
}

/// Prints the members of the program of these files behind those of the prelude, each with its number:
///
/// - `CLASS: DECLARATION/MEMBER.VARIABLE`, counted from 0, or `outside: DECLARATION.VARIABLE`.
/// - `CLASS: implied` is the constructor of a class in which none is written.
/// - `CLASS: forwards to OTHER/MEMBER` is that of a class with a mixin, for one of another class.
#[tactic(auto, unfolding(class_heads::specs::Sources::classes_in))]
pub fn print_members(rt: &impl Print, alloc: Global, files: &Files) -> Result<()> {
    let program = program(alloc, files)?;
    let scopes = resolve(alloc, &program)?;
    let files = program.files().as_slice();
    let written = written(alloc, files)?;
    let classes = classes(alloc, files, &scopes)?;
    let classes = classes.as_slice();
    let program = ProgramClasses::new(files, &scopes, classes, written.as_slice());
    let members = members(alloc, &program)?;
    for (number, member) in members.as_slice().iter().enumerate().skip(MEMBERS) {
        rt.println(format_args!("    {number} {}", shown_member(alloc, classes, *member)?))?;
    }
    Ok(())
}
