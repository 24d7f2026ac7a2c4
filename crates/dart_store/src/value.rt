//! Values.

ghost use Rattle.std.specs.Prelude.{◌≡◌};
ghost use Rattle.std.specs.Option.{option_copied};
ghost use Rattle.dart_store.specs.Values.{number_in, text_in, list_in, map_in};

use store_lists::{Share, SharedText};

/// A value. What has an address is a place in the store, and each kind has addresses of its own.
#[derive(Drop)]
pub enum Value<'a> {
    Null,
    Bool(bool),
    /// A whole number, at most 2^53 - 1 away from 0.
    Int(i64),
    Text(SharedText<'a>),
    /// The object at this address.
    Object(usize),
    /// The list at this address.
    List(usize),
    /// The map at this address.
    Map(usize),
    /// A function value that was made while the program ran, by its address.
    Function(usize),
    /// The static function with this number as a member, which is one value all the time.
    Static(u32),
}

impl<'a> Share for Value<'a> {
    fn share(&self) -> Value<'a> {
        match self {
            Value::Null => Value::Null,
            Value::Bool(a) => Value::Bool(*a),
            Value::Int(a) => Value::Int(*a),
            Value::Text(a) => Value::Text(a.share()),
            Value::Object(a) => Value::Object(*a),
            Value::List(a) => Value::List(*a),
            Value::Map(a) => Value::Map(*a),
            Value::Function(a) => Value::Function(*a),
            Value::Static(a) => Value::Static(*a),
        }
    }
}

/// The whole number that a value is, if it is one.
pub fn number_in(value: Option<&Value>) -> Option<i64>
    ensures { result ≡ number_in (option_copied value.entry) }
{
    match value {
        Some(Value::Int(a)) => Some(*a),
        _ => None,
    }
}

/// The text that a value is, if it is one.
pub fn text_in<'a>(value: Option<&Value<'a>>) -> Option<SharedText<'a>>
    ensures { result ≡ text_in (option_copied value.entry) }
{
    match value {
        Some(Value::Text(a)) => Some(a.share()),
        _ => None,
    }
}

/// The address of the list that a value is, if it is one.
pub fn list_in(value: Option<&Value>) -> Option<usize>
    ensures { result ≡ list_in (option_copied value.entry) }
{
    match value {
        Some(Value::List(a)) => Some(*a),
        _ => None,
    }
}

/// The address of the map that a value is, if it is one.
pub fn map_in(value: Option<&Value>) -> Option<usize>
    ensures { result ≡ map_in (option_copied value.entry) }
{
    match value {
        Some(Value::Map(a)) => Some(*a),
        _ => None,
    }
}
