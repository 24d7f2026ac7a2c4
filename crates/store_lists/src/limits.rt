//! How large numbers and counts may be.

ghost use Rattle.std.specs.Prelude.{◌≡◌};
ghost use Rattle.store_lists.specs.Limits.{in_range, is_length};

/// The greatest number; the least one is its negative. No text, list or map has more entries.
pub const MAX_NUMBER: i64 = 9_007_199_254_740_991;

/// Whether a text, a list or a map may have so many entries.
pub fn is_length(count: u64) -> bool
    ensures { result ≡ is_length count }
{
    count <= MAX_NUMBER as u64
}

/// The number, unless it is farther from 0 than the greatest one.
pub fn in_range(number: i64) -> Option<i64>
    ensures { result ≡ in_range number }
{
    if number.unsigned_abs() <= MAX_NUMBER as u64 {
        Some(number)
    } else {
        None
    }
}
