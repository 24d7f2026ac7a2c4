//! Natives on texts, and on what has a text.

ghost use Rattle.std.specs.Prelude.{◌≡◌, IfOk};
ghost use Rattle.std.specs.Option.{option_copied};
ghost use Rattle.dart_store.specs.Texts.{printing, object_text, joined, units_in, unit, end_of, part_of, part_between, sign_of, order};

use crate::answers::{Applied, Thrower, count, text};
use crate::store::Store;
use crate::value::{Value, number_in};
use bumpalo::Bump;
use std::alloc::AllocError;
use std::cmp::Ordering;
use store_lists::SharedText;

/// What `print` gives.
pub fn printing<'a>(a: Option<SharedText<'a>>) -> Applied<'a>
    ensures { result ≡ printing a.entry }
{
    match a {
        Some(_) => Applied::Gives(Value::Null),
        None => Applied::Throws(Thrower::Argument),
    }
}

/// The text of an object: that it is an instance of its class.
pub fn object_text<'a>(
    arena: &'a Bump,
    store: &Store<'a>,
    a: Option<&Value<'a>>,
) -> Result<Applied<'a>, AllocError>
    ensures { IfOk result (λ applied. applied ≡ object_text store.now (option_copied a.entry)) }
{
    match a {
        Some(a) => {
            let name = store.class_name(store.class_of(a));
            let front = SharedText::new(&[
                73, 110, 115, 116, 97, 110, 99, 101, 32, 111, 102, 32, 39,
            ]);
            let units = front.joined(arena, &name)?;
            let units = units.joined(arena, &SharedText::new(&[39]))?;
            Ok(text(units))
        }
        None => Ok(Applied::Throws(Thrower::Argument)),
    }
}

/// The first text, and behind it the second.
pub fn joined<'a>(
    arena: &'a Bump,
    a: Option<SharedText<'a>>,
    b: Option<SharedText<'a>>,
) -> Result<Applied<'a>, AllocError>
    ensures { IfOk result (λ applied. applied ≡ joined a.entry b.entry) }
{
    match (a, b) {
        (Some(a), Some(b)) => {
            let units = a.joined(arena, &b)?;
            Ok(text(units))
        }
        _ => Ok(Applied::Throws(Thrower::Argument)),
    }
}

/// How many units there are.
pub fn units_in<'a>(a: Option<SharedText<'a>>) -> Applied<'a>
    ensures { result ≡ units_in a.entry }
{
    match a {
        Some(a) => count(a.len()),
        None => Applied::Throws(Thrower::Argument),
    }
}

/// The unit at an index in range.
pub fn unit<'a>(a: Option<SharedText<'a>>, b: Option<i64>) -> Applied<'a>
    ensures { result ≡ unit a.entry b }
{
    match (a, b) {
        (Some(a), Some(b)) => match a.unit(b) {
            Some(unit) => Applied::Gives(Value::Int(i64::from(unit))),
            None => Applied::Throws(Thrower::Range),
        },
        _ => Applied::Throws(Thrower::Argument),
    }
}

/// The end of a part: null stands for the length.
fn end_of(a: &SharedText, c: Option<&Value>) -> Option<i64>
    ensures { result ≡ end_of a.now (option_copied c.entry) }
{
    match c {
        Some(Value::Null) => Some(a.len() as i64),
        _ => number_in(c),
    }
}

/// The units from one place up to, and without, another.
pub fn part_of<'a>(
    arena: &'a Bump,
    a: Option<SharedText<'a>>,
    b: Option<i64>,
    c: Option<&Value<'a>>,
) -> Result<Applied<'a>, AllocError>
    ensures { IfOk result (λ applied. applied ≡ part_of a.entry b (option_copied c.entry)) }
{
    match a {
        Some(a) => {
            let end = end_of(&a, c);
            part_between(arena, &a, b, end)
        }
        None => Ok(Applied::Throws(Thrower::Argument)),
    }
}

fn part_between<'a>(
    arena: &'a Bump,
    a: &SharedText<'a>,
    b: Option<i64>,
    c: Option<i64>,
) -> Result<Applied<'a>, AllocError>
    ensures { IfOk result (λ applied. applied ≡ part_between a.now b c) }
{
    match (b, c) {
        (Some(b), Some(c)) => {
            let part = a.part(arena, b, c)?;
            match part {
                Some(units) => Ok(Applied::Gives(Value::Text(units))),
                None => Ok(Applied::Throws(Thrower::Range)),
            }
        }
        _ => Ok(Applied::Throws(Thrower::Argument)),
    }
}

fn sign_of(order: Ordering) -> i64
    ensures { result ≡ sign_of order }
{
    match order {
        Ordering::Less => -1,
        Ordering::Equal => 0,
        Ordering::Greater => 1,
    }
}

/// -1, 0 or 1, by the units.
pub fn order<'a>(a: Option<SharedText<'a>>, b: Option<SharedText<'a>>) -> Applied<'a>
    ensures { result ≡ order a.entry b.entry }
{
    match (a, b) {
        (Some(a), Some(b)) => Applied::Gives(Value::Int(sign_of(a.compare(&b)))),
        _ => Applied::Throws(Thrower::Argument),
    }
}
