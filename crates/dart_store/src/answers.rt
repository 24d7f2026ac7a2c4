//! What natives answer.

ghost use Rattle.std.specs.Prelude.{◌≡◌, length};
ghost use Rattle.dart_store.specs.Answers.{number, count, text, has_room, checked};

use crate::value::Value;
use store_lists::{MAX_NUMBER, SharedText, is_length};

/// A function of the prelude that throws.
#[derive(Clone, Copy, Debug, PartialEq, Eq, Drop)]
pub enum Thrower {
    /// Of what is no right argument: `_argument`.
    Argument,
    /// Of what is out of range: `_range`.
    Range,
    /// Of a division by zero: `_divide`.
    Divide,
}

/// What a native answers.
#[derive(Drop)]
pub enum Applied<'a> {
    /// It gives a value.
    Gives(Value<'a>),
    /// It throws by this function, and nothing has changed.
    Throws(Thrower),
    /// A number or a count leaves the whole numbers, which ends the run; nothing has changed.
    Leaves,
}

/// A number, unless it is farther from 0 than the greatest one.
pub fn number<'a>(z: i64) -> Applied<'a>
    ensures { result ≡ number z }
{
    if z.unsigned_abs() <= MAX_NUMBER as u64 {
        Applied::Gives(Value::Int(z))
    } else {
        Applied::Leaves
    }
}

/// The number that a checked operation gave.
pub(crate) fn checked<'a>(z: Option<i64>) -> Applied<'a>
    ensures { result ≡ checked z }
{
    match z {
        Some(z) => number(z),
        None => Applied::Leaves,
    }
}

/// A count, as a number.
pub fn count<'a>(n: u64) -> Applied<'a>
    ensures { result ≡ count n }
{
    if n <= MAX_NUMBER as u64 {
        Applied::Gives(Value::Int(n as i64))
    } else {
        Applied::Leaves
    }
}

/// A text, unless it has more units than there are numbers.
pub fn text<'a>(units: SharedText<'a>) -> Applied<'a>
    ensures { result ≡ text units.entry }
{
    if is_length(units.len()) {
        Applied::Gives(Value::Text(units))
    } else {
        Applied::Leaves
    }
}

/// Whether one more than so many is a number still.
pub fn has_room(n: u64) -> bool
    ensures { result ≡ has_room n }
{
    n < MAX_NUMBER as u64
}
