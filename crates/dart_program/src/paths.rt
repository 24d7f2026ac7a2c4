//! The file that an import names.
//!
//! A name is split at each `/`. Nothing and `.` between two of them stay where they are, `..` goes to the folder round it,
//! and any other part goes further in. A leading `/` starts from the root, and any other name from the folder of the file
//! that has the import.
ghost use Rattle.std.specs.Prelude.{◌≡◌, ◌∷◌, ◌++◌, Bool, List, Some, IfOk, OnOk, map, option_map, flat_map, filter, not};
ghost use Rattle.code_units.specs.Text.{units_of};
ghost use Rattle.dart_program.specs.Paths as spec;
ghost use Rattle.dart_program.specs.Folders.{inward, settled};

use code_units::Text;
use std::alloc::{AllocError, Global};

const SLASH: u16 = 0x2F;

const DOT: [u16; 1] = [0x2E];

const DOTS: [u16; 2] = [0x2E, 0x2E];

/// Whether an import of this name means the prelude: `dart:core` or `dart:async`, written just so.
pub fn is_core(uri: &Text) -> bool
    ensures { result ≡ spec.is_core uri.now }
{
    uri.is("dart:core") || uri.is("dart:async")
}

/// The name of the file that an import names in the file of that name; none where a `..` has nothing to remove.
#[tactic(auto, unfolding(crate::specs::Paths::named_from))]
pub fn named_from(alloc: Global, file: &Text, uri: &Text) -> Result<Option<Text>, AllocError>
    ensures { IfOk result (λ name. name ≡ spec.named_from file.now uri.now) }
{
    let units = uri.as_slice();
    if is_rooted(units) {
        named(alloc, true, Vec::new(alloc), units)
    } else {
        let name = file.as_slice();
        named(alloc, is_rooted(name), folder(alloc, name)?, units)
    }
}

/// The name of the entry, from the word that names it; none where a `..` has nothing to remove.
pub fn entry_name(alloc: Global, word: &str) -> Result<Option<Text>, AllocError>
    ensures { IfOk result (λ name. name ≡ spec.entry_name (units_of word.now)) }
{
    let uri = Text::from_str(alloc, word)?;
    named_from(alloc, &Text::new(alloc), &uri)
}

fn is_rooted(units: &[u16]) -> bool
    ensures { result ≡ spec.is_rooted units.now }
{
    match units.first() {
        Some(unit) => *unit == SLASH,
        None => false,
    }
}

// What stands before, between and behind the slashes.
fn parts(alloc: Global, units: &[u16]) -> Result<Vec<&[u16]>, AllocError>
    ensures { IfOk result (λ parts. map (λ p. p.now) parts.items ≡ spec.parts units.now) }
{
    units.split(|unit| *unit == SLASH).collect(alloc)
}

// Those that are not empty.
fn filled<'a>(alloc: Global, parts: &[&'a [u16]]) -> Result<Vec<&'a [u16]>, AllocError>
    ensures { IfOk result (λ filled. map (λ p. p.now) filled.items ≡ filter (λ p. not (spec.is_empty p)) (map (λ p. p.now) parts.now)) }
{
    let mut filled = Vec::new(alloc);
    for part in parts {
        if !part.is_empty() {
            filled.push(*part)?;
        }
    }
    Ok(filled)
}

// The folder that a file of this name lies in, with the outermost part first.
fn folder<'a>(alloc: Global, name: &'a [u16]) -> Result<Vec<&'a [u16]>, AllocError>
    ensures { IfOk result (λ at. inward at.items ≡ spec.folder name.now) }
{
    let parts = parts(alloc, name)?;
    let mut at = filled(alloc, parts.as_slice())?;
    at.pop();
    Ok(at)
}

fn stays(part: &[u16]) -> bool
    ensures { result ≡ spec.stays part.now }
{
    part.is_empty() || part == DOT.as_slice()
}

fn goes_up(part: &[u16]) -> bool
    ensures { result ≡ spec.goes_up part.now }
{
    part == DOTS.as_slice()
}

// Goes one part further; false where `..` has nothing to remove.
fn step<'a>(at: &mut Vec<&'a [u16]>, part: &'a [u16]) -> Result<bool, AllocError>
    ensures { IfOk result (λ goes. settled goes at.new.items ≡ spec.step (inward at.old.items) part.now) }
{
    if stays(part) {
        return Ok(true);
    }
    if goes_up(part) {
        return Ok(at.pop().is_some());
    }
    at.push(part)?;
    Ok(true)
}

// Goes all parts further; false where `..` has nothing to remove.
fn walk<'a>(at: &mut Vec<&'a [u16]>, parts: &[&'a [u16]]) -> Result<bool, AllocError>
    ensures { IfOk result (λ goes. settled goes at.new.items ≡ spec.walk (inward at.old.items) (map (λ p. p.now) parts.now)) }
{
    for part in parts {
        if !step(at, *part)? {
            return Ok(false);
        }
    }
    Ok(true)
}

// Adds the parts, each behind a slash.
fn push_behind(name: &mut Vec<u16>, parts: &[&[u16]]) -> Result<(), AllocError>
    ensures { OnOk result (name.new.items ≡ name.old.items ++ flat_map (λ q. spec.slash ∷ q) (map (λ p. p.now) parts.now)) }
{
    for part in parts {
        name.push(SLASH)?;
        name.extend_from_slice(*part)?;
    }
    Ok(())
}

// Adds the parts with slashes between.
fn push_joined(name: &mut Vec<u16>, parts: &[&[u16]]) -> Result<(), AllocError>
    ensures { OnOk result (name.new.items ≡ name.old.items ++ spec.joined (map (λ p. p.now) parts.now)) }
{
    match parts.split_first() {
        Some((first, others)) => {
            name.extend_from_slice(*first)?;
            push_behind(name, others)
        }
        None => Ok(()),
    }
}

fn spelled(alloc: Global, rooted: bool, at: &[&[u16]]) -> Result<Text, AllocError>
    ensures { IfOk result (λ name. name ≡ spec.spelled rooted (inward at.now)) }
{
    let mut name = Vec::new(alloc);
    if rooted {
        name.push(SLASH)?;
    }
    push_joined(&mut name, at)?;
    Ok(Text::from_vec(alloc, name))
}

// The name of what lies all parts of the name further.
fn named<'a>(
    alloc: Global,
    rooted: bool,
    at: Vec<&'a [u16]>,
    uri: &'a [u16],
) -> Result<Option<Text>, AllocError>
    ensures { IfOk result (λ name. name ≡ option_map (spec.spelled rooted) (spec.walk (inward at.entry.items) (spec.parts uri.now))) }
{
    let mut at = at;
    let parts = parts(alloc, uri)?;
    if !walk(&mut at, parts.as_slice())? {
        return Ok(None);
    }
    Ok(Some(spelled(alloc, rooted, at.as_slice())?))
}
