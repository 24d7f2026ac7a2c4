//! Escapes in texts.
ghost use Rattle.std.specs.Prelude.{◌≡◌, ◌≤◌, length};
ghost use Rattle.dart_syntax.specs.Texts as texts;
ghost use Rattle.dart_tokens.specs.Answers.{ShowsUnits};

use crate::bytes::{Class, before, behind, ends_line, next};
use crate::numbers::{all_hex, value_of};
use crate::units::encoded;

/// The units of an escape.
#[derive(Clone, Copy, Debug)]
pub enum Escaped {
    Nothing,
    Unit(u16),
    Pair(u16, u16),
}

#[tactic(auto, using(crate::proofs::Digits::short_value))]
fn unit_escape(count: usize, bytes: &[u8]) -> Option<(Escaped, &[u8])>
    requires { count ≤ 4 }
    ensures { ShowsUnits result (texts.unit_escape count bytes.now) }
{
    if count > bytes.len() {
        return None;
    }
    let digits = &bytes[..count];
    if !all_hex(digits) {
        return None;
    }
    let value = value_of(16, digits);
    Some((
        Escaped::Unit(value.min(0xFFFF) as u16),
        behind(count, bytes),
    ))
}

// Whether these digits are one to six and write a character's number.
#[tactic(auto, using(crate::proofs::Digits::capped_value))]
fn is_code_point(digits: &[u8]) -> bool
    ensures { result ≡ texts.is_code_point digits.now }
{
    1 <= digits.len() && digits.len() <= 6 && value_of(16, digits) <= 0x10_FFFF
}

#[tactic(auto, using(crate::proofs::Digits::capped_value))]
fn braced_escape<'a>(digits: &[u8], bytes: &'a [u8]) -> Option<(Escaped, &'a [u8])>
    ensures { ShowsUnits result (texts.braced_escape digits.now bytes.now) }
{
    let (first, rest) = next(bytes)?;
    let closes = first == b'}' && is_code_point(digits);
    if closes {
        let code = value_of(16, digits).min(0x10_FFFF) as u32;
        Some((encoded(code), rest))
    } else {
        None
    }
}

#[tactic(auto, using(dart_syntax::proofs::Fronts::front_take))]
fn unicode_escape(bytes: &[u8]) -> Option<(Escaped, &[u8])>
    ensures { ShowsUnits result (texts.unicode_escape bytes.now) }
{
    let (first, more) = next(bytes)?;
    if first == b'{' {
        let rest = Class::Hex.past(more);
        return braced_escape(before(more, rest), rest);
    }
    unit_escape(4, bytes)
}

fn control_of(b: u8) -> u16
    ensures { result ≡ texts.control_of b }
{
    if b == b'n' {
        10
    } else if b == b'r' {
        13
    } else if b == b'f' {
        12
    } else if b == b'b' {
        8
    } else if b == b't' {
        9
    } else if b == b'v' {
        11
    } else {
        u16::from(b)
    }
}

/// The units of the escape behind a backslash, and what follows it.
#[tactic(auto, unfolding(dart_syntax::specs::Texts::escape))]
pub fn escape(bytes: &[u8]) -> Option<(Escaped, &[u8])>
    ensures { ShowsUnits result (texts.escape bytes.now) }
{
    let (b, rest) = next(bytes)?;
    if b == b'x' {
        return unit_escape(2, rest);
    }
    if b == b'u' {
        return unicode_escape(rest);
    }
    if ends_line(b) {
        return None;
    }
    if 128 <= b {
        return Some((Escaped::Nothing, bytes));
    }
    Some((Escaped::Unit(control_of(b)), rest))
}

/// Whether an escape by a number begins behind the backslash.
pub fn is_numbered(bytes: &[u8]) -> bool
    ensures { result ≡ texts.is_numbered bytes.now }
{
    match next(bytes) {
        Some((first, _)) => first == b'x' || first == b'u',
        None => false,
    }
}
