//! What function values hold.

ghost use Rattle.std.specs.Prelude.{◌≡◌, length, slice_get, IfOk, OnOk};
ghost use Rattle.std.specs.Option.{option_copied};
ghost use Rattle.dart_store.specs.Functions.{with_function};
ghost use Rattle.dart_store.specs.declared.value.Value.TheVariants as v;

use crate::value::Value;
use std::alloc::AllocError;
use store_lists::Slots;

/// What a function value that was made while the program ran holds.
#[derive(Drop)]
pub enum Function<'a, C> {
    /// A function literal or a local function: its code, with the addresses of what is in scope there.
    Literal(C),
    /// A method that was read from a receiver: its number as a member, and the receiver.
    Method(u32, Value<'a>),
}

/// Function values by their addresses.
pub type Functions<'a, C> = Slots<Function<'a, C>>;

/// A new function value, equal only to itself.
pub fn make_function<'a, C: Drop>(
    functions: &mut Functions<'a, C>,
    made: Function<'a, C>,
) -> Result<Value<'a>, AllocError>
    ensures value { IfOk result (λ value. value ≡ v.Function (length functions.old)) }
    ensures functions { OnOk result (functions.new ≡ with_function functions.old made.entry) }
{
    let address = functions.len();
    functions.push(made)?;
    Ok(Value::Function(address))
}
