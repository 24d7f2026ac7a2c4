//! Strings, and the units that they spell.

ghost use Rattle.std.specs.Prelude.{◌≡◌, ◌≤◌, true, false, IfOk, MatchOption, length, []};
ghost use Rattle.std.specs.Option.{option_map};
ghost use Rattle.js_tree.specs.Tokens as tokens;
ghost use Rattle.js_reader.specs.Scanning as spec;

use crate::bytes::{begins, is_digit, next};
use crate::growing::Growing;
use sqlite_items::Items;
use std::alloc::{AllocError, Global};

fn is_plain(b: u8) -> bool
    ensures { result ≡ tokens.is_plain b }
{
    32 <= b && b <= 126 && b != b'"' && b != b'\\'
}

/// The value of a hexadecimal digit.
fn digit(b: u8) -> Option<u16>
    ensures { MatchOption result (tokens.is_hex b ≡ false) (λ value. (tokens.is_hex b ≡ true) × (value ≡ tokens.hex_value b) × (value ≤ 15)) }
{
    if is_digit(b) {
        Some(u16::from(b) - 48)
    } else if b'a' <= b && b <= b'f' {
        Some(u16::from(b) - 87)
    } else {
        None
    }
}

/// The unit that four hexadecimal digits spell, and what follows them.
fn hexadecimal(bytes: &[u8]) -> Option<(u16, &[u8])>
    ensures { option_map (λ x. (x.0, x.1.now)) result ≡ spec.hexadecimal bytes.now }
{
    let (first, rest) = next(bytes)?;
    let (second, rest) = next(rest)?;
    let (third, rest) = next(rest)?;
    let (fourth, rest) = next(rest)?;
    let first = digit(first)?;
    let second = digit(second)?;
    let third = digit(third)?;
    let fourth = digit(fourth)?;
    Some((4096 * first + 256 * second + 16 * third + fourth, rest))
}

/// The unit that is escaped behind a backslash, and what follows it.
#[tactic(auto, unfolding(crate::specs::Scanning::escaped))]
fn escaped(bytes: &[u8]) -> Option<(u16, &[u8])>
    ensures { option_map (λ x. (x.0, x.1.now)) result ≡ spec.escaped bytes.now }
{
    let (b, rest) = next(bytes)?;
    if b == b'"' || b == b'\\' {
        Some((u16::from(b), rest))
    } else if b == b'u' {
        hexadecimal(rest)
    } else {
        None
    }
}

/// One unit of a string, and what follows it.
#[tactic(auto, unfolding(crate::specs::Scanning::unit_at))]
fn unit(bytes: &[u8]) -> Option<(u16, &[u8])>
    ensures { option_map (λ x. (x.0, x.1.now)) result ≡ spec.unit_at bytes.now }
{
    let (b, rest) = next(bytes)?;
    if is_plain(b) {
        Some((u16::from(b), rest))
    } else if b == b'\\' {
        escaped(rest)
    } else {
        None
    }
}

/// The units of a string behind its first quote, and what follows its last one.
#[tactic(auto, using(crate::proofs::Turns::one_turn, crate::proofs::Turns::no_turn), unfolding(crate::specs::Scanning::units_from))]
fn units(alloc: Global, bytes: &[u8]) -> Result<Option<(Items<u16>, &[u8])>, AllocError>
    ensures { IfOk result (λ found. option_map (λ x. (x.0, x.1.now)) found ≡ spec.units_from (length bytes.now) [] bytes.now) }
{
    let mut found = Growing::new(alloc);
    let mut rest = bytes;
    for _turn in 0..bytes.len() {
        if begins(b'"', rest) {
            return Ok(Some((found.into_items(), &rest[1..])));
        }
        let Some((unit, after)) = unit(rest) else {
            return Ok(None);
        };
        found.push(unit)?;
        rest = after;
    }
    Ok(None)
}

/// The units of the string that the bytes begin with, and what follows it.
#[tactic(auto, unfolding(crate::specs::Scanning::quoted))]
pub fn quoted(alloc: Global, bytes: &[u8]) -> Result<Option<(Items<u16>, &[u8])>, AllocError>
    ensures { IfOk result (λ found. option_map (λ x. (x.0, x.1.now)) found ≡ spec.quoted bytes.now) }
{
    if !begins(b'"', bytes) {
        return Ok(None);
    }
    units(alloc, &bytes[1..])
}
