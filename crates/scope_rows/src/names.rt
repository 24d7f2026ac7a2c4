//! What names stand for.

use anyhow::{Context, Result, bail};
use code_units::Text;
use library_scopes::{Named, Scopes};
use std::alloc::{AllocError, Global};

// How many classes the prelude declares.
const CLASSES: u32 = 23;

// How many functions the prelude declares.
const MEMBERS: u32 = 16;

// The number of a declaration, counted from the prelude's on where it is not one of the prelude's.
fn numbered(alloc: Global, what: &str, among: u32, number: u32) -> Result<String, AllocError> {
    match number.checked_sub(among) {
        Some(own) => format!(in alloc; "{what} {own}"),
        None => format!(in alloc; "{what} {number} of the prelude"),
    }
}

fn shown(alloc: Global, found: Option<Named>) -> Result<String, AllocError> {
    match found {
        Some(Named::Class(number)) => numbered(alloc, "class", CLASSES, number),
        Some(Named::Member(number)) => numbered(alloc, "member", MEMBERS, number),
        Some(Named::Prefix(number)) => format!(in alloc; "prefix {number}"),
        None => String::from_str(alloc, "nothing"),
    }
}

fn shown_import(alloc: Global, found: Option<u32>) -> Result<String, AllocError> {
    match found {
        Some(number) => format!(in alloc; "deferred import {number}"),
        None => String::from_str(alloc, "nothing"),
    }
}

/// What a look-up finds.
///
/// - `in NUMBER: NAME`: the name in the file of this number; `NAME=` stands for what takes a value that is assigned.
/// - `behind NUMBER: NAME`: the name behind the prefix of this number.
/// - `deferred NUMBER:`: the deferred import of the prefix of this number.
pub fn looked_up(alloc: Global, scopes: &Scopes, line: &str) -> Result<String> {
    let (place, name) = line.split_once(':').context("no name")?;
    let (word, number) = place.split_once(' ').context("no number")?;
    let number: u32 = number.parse()?;
    let name = Text::from_str(alloc, name.strip_prefix(' ').unwrap_or(name))?;
    match word {
        "in" => Ok(shown(alloc, scopes.lookup(number, &name))?),
        "behind" => Ok(shown(alloc, scopes.behind(number, &name))?),
        "deferred" => Ok(shown_import(alloc, scopes.deferred(number))?),
        _ => bail!("no look-up {word}"),
    }
}
