//! Values of digits.
ghost use Rattle.std.specs.Prelude.{◌≡◌, ◌≤◌, ◌==◌, length, nat_le, ◌&&◌};
ghost use Rattle.std.specs.List.{list_all};
ghost use Rattle.dart_syntax.specs.Table.{digit_of, is_hex};
ghost use Rattle.dart_syntax.specs.Reader.{capped_from};

use crate::bytes::{Class, is_digit, next};

/// The greatest whole number.
pub const LIMIT: u64 = 9007199254740991;

fn digit_of(b: u8) -> u64
    ensures value { result ≡ digit_of b }
    ensures small { result ≤ 255 }
{
    let over = if is_digit(b) {
        b'0'
    } else if b'a' <= b {
        87
    } else {
        55
    };
    u64::from(b.saturating_sub(over))
}

/// The number that digits of this base write, cut at the first that is above the limit.
pub fn value_of(base: u64, digits: &[u8]) -> u64
    requires { base ≤ 16 }
    ensures { result ≡ capped_from base 0 digits.now }
{
    let mut value = 0;
    let mut rest = digits;
    'digits: while let Some((b, more)) = next(rest) {
        value = (base * value + digit_of(b)).min(LIMIT + 1);
        rest = more;
    }
    value
}

/// Whether all are hexadecimal digits.
#[tactic(auto, using(crate::proofs::Digits::all_is))]
pub fn all_hex(digits: &[u8]) -> bool
    ensures { result ≡ list_all is_hex digits.now }
{
    Class::Hex.past(digits).is_empty()
}
