//! Natives on whole numbers.

ghost use Rattle.std.specs.Prelude.{◌≡◌, ◌<◌, IfOk};
ghost use Rattle.dart_store.specs.Numbers.{sum, difference, product, negative, quotient, quotient_of, left_over, remainder, remainder_of, compared, less, more, up_to, from, digits};

use crate::answers::{Applied, Thrower, checked, count};
use crate::value::Value;
use bumpalo::Bump;
use std::alloc::AllocError;
use store_lists::SharedText;

/// The sum.
#[tactic(auto, using(crate::proofs::Arithmetic::checked_is))]
pub fn sum<'a>(a: Option<i64>, b: Option<i64>) -> Applied<'a>
    ensures { result ≡ sum a b }
{
    match (a, b) {
        (Some(a), Some(b)) => checked(a.checked_add(b)),
        _ => Applied::Throws(Thrower::Argument),
    }
}

/// The difference.
#[tactic(auto, using(crate::proofs::Arithmetic::checked_is))]
pub fn difference<'a>(a: Option<i64>, b: Option<i64>) -> Applied<'a>
    ensures { result ≡ difference a b }
{
    match (a, b) {
        (Some(a), Some(b)) => checked(a.checked_sub(b)),
        _ => Applied::Throws(Thrower::Argument),
    }
}

/// The product.
#[tactic(auto, using(crate::proofs::Arithmetic::checked_is))]
pub fn product<'a>(a: Option<i64>, b: Option<i64>) -> Applied<'a>
    ensures { result ≡ product a b }
{
    match (a, b) {
        (Some(a), Some(b)) => checked(a.checked_mul(b)),
        _ => Applied::Throws(Thrower::Argument),
    }
}

/// The negative.
#[tactic(auto, using(crate::proofs::Arithmetic::checked_is))]
pub fn negative<'a>(a: Option<i64>) -> Applied<'a>
    ensures { result ≡ negative a }
{
    match a {
        Some(a) => checked(a.checked_neg()),
        None => Applied::Throws(Thrower::Argument),
    }
}

/// The quotient, towards zero.
pub fn quotient<'a>(a: Option<i64>, b: Option<i64>) -> Applied<'a>
    ensures { result ≡ quotient a b }
{
    match (a, b) {
        (Some(a), Some(b)) => quotient_of(a, b),
        _ => Applied::Throws(Thrower::Argument),
    }
}

#[tactic(auto, using(crate::proofs::Arithmetic::quotient_is))]
fn quotient_of<'a>(a: i64, b: i64) -> Applied<'a>
    ensures { result ≡ quotient_of a b }
{
    if b == 0 {
        Applied::Throws(Thrower::Divide)
    } else {
        checked(a.checked_div(b))
    }
}

/// The remainder, which is never negative.
pub fn remainder<'a>(a: Option<i64>, b: Option<i64>) -> Applied<'a>
    ensures { result ≡ remainder a b }
{
    match (a, b) {
        (Some(a), Some(b)) => remainder_of(a, b.unsigned_abs()),
        _ => Applied::Throws(Thrower::Argument),
    }
}

fn remainder_of<'a>(a: i64, size: u64) -> Applied<'a>
    ensures { result ≡ remainder_of a size }
{
    if size == 0 {
        Applied::Throws(Thrower::Divide)
    } else {
        count(left_over(a, size))
    }
}

/// What is left of a number where whole ones of this size are taken off or added.
#[tactic(auto, using(crate::proofs::Arithmetic::left_above, crate::proofs::Arithmetic::left_below))]
fn left_over(a: i64, size: u64) -> u64
    requires { 0 < size }
    ensures { result ≡ left_over a size }
{
    if a < 0 {
        size - 1 - (a.unsigned_abs() - 1) % size
    } else {
        a.unsigned_abs() % size
    }
}

/// Whether the first is less.
pub fn less<'a>(a: Option<i64>, b: Option<i64>) -> Applied<'a>
    ensures { result ≡ compared less a b }
{
    match (a, b) {
        (Some(a), Some(b)) => Applied::Gives(Value::Bool(a < b)),
        _ => Applied::Throws(Thrower::Argument),
    }
}

/// Whether the first is greater.
pub fn more<'a>(a: Option<i64>, b: Option<i64>) -> Applied<'a>
    ensures { result ≡ compared more a b }
{
    match (a, b) {
        (Some(a), Some(b)) => Applied::Gives(Value::Bool(a > b)),
        _ => Applied::Throws(Thrower::Argument),
    }
}

/// Whether the first is less or equal.
pub fn up_to<'a>(a: Option<i64>, b: Option<i64>) -> Applied<'a>
    ensures { result ≡ compared up_to a b }
{
    match (a, b) {
        (Some(a), Some(b)) => Applied::Gives(Value::Bool(a <= b)),
        _ => Applied::Throws(Thrower::Argument),
    }
}

/// Whether the first is greater or equal.
pub fn from<'a>(a: Option<i64>, b: Option<i64>) -> Applied<'a>
    ensures { result ≡ compared from a b }
{
    match (a, b) {
        (Some(a), Some(b)) => Applied::Gives(Value::Bool(a >= b)),
        _ => Applied::Throws(Thrower::Argument),
    }
}

/// The decimal text.
pub fn digits<'a>(arena: &'a Bump, a: Option<i64>) -> Result<Applied<'a>, AllocError>
    ensures { IfOk result (λ applied. applied ≡ digits a) }
{
    match a {
        Some(a) => {
            let digits = SharedText::decimal(arena, a)?;
            Ok(Applied::Gives(Value::Text(digits)))
        }
        None => Ok(Applied::Throws(Thrower::Argument)),
    }
}
