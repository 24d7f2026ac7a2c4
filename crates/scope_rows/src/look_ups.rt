//! What is found in the classes of programs.

use crate::members::shown_member;
use anyhow::{Context, Result, bail};
use class_hierarchy::{Hierarchy, Resolved, build};
use code_units::{Files, Text};
use library_scopes::resolve;
use source_programs::program;
use std::alloc::Global;

// The number of the entry.
const ENTRY: u32 = 1;

/// The program of these files, with its classes.
pub fn built(alloc: Global, files: &Files) -> Result<Resolved> {
    let program = program(alloc, files)?;
    let scopes = resolve(alloc, &program)?;
    Ok(build(alloc, program, scopes)?)
}

// The last class of that name.
fn class_named(hierarchy: &Hierarchy, name: &str) -> Result<u32> {
    let mut found = None;
    let mut number: u32 = 0;
    for class in hierarchy.classes.as_slice() {
        if class.name.is(name) {
            found = Some(number);
        }
        number = number.checked_add(1).context("too many classes")?;
    }
    found.context("no such class")
}

fn found(alloc: Global, hierarchy: &Hierarchy, class: &str, name: &str) -> Result<String> {
    let class = class_named(hierarchy, class)?;
    let Some(selector) = hierarchy.selector(ENTRY, &Text::from_str(alloc, name)?) else {
        return Ok(String::from_str(alloc, "no such name")?);
    };
    let Some(number) = hierarchy.find(class, selector) else {
        return Ok(String::from_str(alloc, "nothing")?);
    };
    let member = *hierarchy.member(number).context("no such member")?;
    let shown = shown_member(alloc, hierarchy.classes.as_slice(), member)?;
    Ok(format!(in alloc; "{number} {shown}")?)
}

fn is_sub(alloc: Global, hierarchy: &Hierarchy, class: &str, other: &str) -> Result<String> {
    let class = class_named(hierarchy, class)?;
    let other = class_named(hierarchy, other)?;
    let answer = if hierarchy.is_sub(class, other) {
        "yes"
    } else {
        "no"
    };
    Ok(String::from_str(alloc, answer)?)
}

/// What a look-up finds.
///
/// - `CLASS.NAME`: the member that the class has under the name as the entry sees it; `NAME=` stands for what takes a value.
/// - `CLASS is OTHER`: whether the class is a subtype of the other one.
pub fn answer(alloc: Global, resolved: &Resolved, line: &str) -> Result<String> {
    let hierarchy = resolved.hierarchy();
    if let Some((class, name)) = line.split_once('.') {
        return found(alloc, hierarchy, class, name);
    }
    if let Some((class, other)) = line.split_once(" is ") {
        return is_sub(alloc, hierarchy, class, other);
    }
    bail!("no look-up {line}")
}
