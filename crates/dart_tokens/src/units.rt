//! The units of characters.
ghost use Rattle.std.specs.Prelude.{◌≡◌, ◌≤◌, ◌<◌, ◌++◌, [], OnOk};
ghost use Rattle.std.specs.Char.Escape.{encode_utf16};
ghost use Rattle.code_units.specs.Text.{units_of, units_of_chars};
ghost use Rattle.std.specs.Str.{continuation_len, lead_bits, chars_after};
ghost use Rattle.dart_tokens.specs.Answers.{units_in, IsPartial};

use crate::bytes::next;
use crate::escapes::Escaped;
use code_units::Text;
use std::alloc::AllocError;

/// The units of a character.
pub fn encoded(code: u32) -> Escaped
    requires { code < 0xA0_0000 }
    ensures { units_in result ≡ encode_utf16 code }
{
    if code < 0x1_0000 {
        Escaped::Unit(code as u16)
    } else {
        let over = code - 0x1_0000;
        Escaped::Pair(
            (0xD800 + over / 0x400) as u16,
            (0xDC00 + over % 0x400) as u16,
        )
    }
}

/// Adds the units of an escape.
pub fn push_escaped(units: &mut Text, escaped: Escaped) -> Result<(), AllocError>
    ensures { OnOk result (units.new ≡ units.old ++ units_in escaped) }
{
    match escaped {
        Escaped::Nothing => Ok(()),
        Escaped::Unit(unit) => units.push(unit),
        Escaped::Pair(first, second) => units.extend(&[first, second]),
    }
}

// Of a character's first byte: how many bytes follow it, and what it holds of the character.
#[tactic(auto, using(crate::proofs::Characters::lead_small))]
fn lead(b: u8) -> (u32, u32)
    ensures count { result.0 ≡ continuation_len b }
    ensures bits { result.1 ≡ lead_bits b }
    ensures small { IsPartial result.0 result.1 }
{
    if b < 128 {
        (0, u32::from(b))
    } else if b < 224 {
        (1, u32::from(b.saturating_sub(192)))
    } else if b < 240 {
        (2, u32::from(b.saturating_sub(224)))
    } else {
        (3, u32::from(b.saturating_sub(240)))
    }
}

/// Adds the units that these UTF-8 bytes spell.
#[tactic(auto, using(crate::proofs::Characters::none_pushed, crate::proofs::Characters::first_of))]
pub fn push_units(units: &mut Text, bytes: &[u8]) -> Result<(), AllocError>
    ensures { OnOk result (units.new ≡ units.old ++ units_of bytes.now) }
{
    match next(bytes) {
        Some((first, rest)) => {
            let (left, code) = lead(first);
            push_from(units, left, code, rest)
        }
        None => Ok(()),
    }
}

// Adds the units of a character of which `left` bytes are still to come, and of those behind it.
fn push_from(units: &mut Text, left: u32, code: u32, bytes: &[u8]) -> Result<(), AllocError>
    requires { IsPartial left code }
    ensures { OnOk result (units.new ≡ units.old ++ units_of_chars (chars_after left code bytes.now)) }
{
    let mut left = left;
    let mut code = code;
    let mut rest = bytes;
    'characters: while let Some((b, after)) = next(rest) {
        if left == 0 {
            push_escaped(units, encoded(code))?;
            let (count, bits) = lead(b);
            left = count;
            code = bits;
        } else {
            left -= 1;
            code = code * 64 + u32::from(b.saturating_sub(128));
        }
        rest = after;
    }
    push_last(units, left, code)
}

// Adds the units of the last character, if it is whole.
fn push_last(units: &mut Text, left: u32, code: u32) -> Result<(), AllocError>
    requires { IsPartial left code }
    ensures { OnOk result (units.new ≡ units.old ++ units_of_chars (chars_after left code [])) }
{
    if left == 0 {
        push_escaped(units, encoded(code))
    } else {
        Ok(())
    }
}
