//! Numbers.

ghost use Rattle.std.specs.Prelude.{◌≡◌};
ghost use Rattle.js_reader.specs.Taking as spec;

use itoa::Buffer;

const GREATEST: u64 = 9007199254740991;

/// The number below 2^64 whose decimal digits these are, without a leading zero.
fn whole_of(text: &[u8]) -> Option<u64>
    ensures { result ≡ spec.whole_of text.now }
{
    let digits = match str::from_utf8(text) {
        Ok(digits) => digits,
        Err(_) => return None,
    };
    let number = match digits.parse::<u64>() {
        Ok(number) => number,
        Err(_) => return None,
    };
    let mut buffer = Buffer::new();
    if buffer.format(number).as_bytes() == text {
        Some(number)
    } else {
        None
    }
}

/// The number of the grammar whose decimal digits these are, without a leading zero.
pub fn number_of(text: &[u8]) -> Option<u64>
    ensures { result ≡ spec.number_of text.now }
{
    match whole_of(text) {
        Some(number) if number <= GREATEST => Some(number),
        _ => None,
    }
}
