//! Values.

ghost use Rattle.std.specs.Prelude.{◌≡◌};
ghost use Rattle.js_store.specs.Values.{truth_of, type_word};

use store_lists::{Share, SharedText};

/// A value. What has an address is a place in the store.
#[derive(Drop)]
pub enum Value<'a> {
    Undefined,
    Null,
    Bool(bool),
    /// A whole number, at most 2^53 - 1 away from 0.
    Number(i64),
    Str(SharedText<'a>),
    /// The object at this address.
    Object(usize),
    /// The array at this address.
    Array(usize),
    /// The map at this address.
    Map(usize),
    /// The function at this address.
    Function(usize),
    /// What `host$` names.
    Host,
}

impl<'a> Share for Value<'a> {
    fn share(&self) -> Value<'a> {
        match self {
            Value::Undefined => Value::Undefined,
            Value::Null => Value::Null,
            Value::Bool(a) => Value::Bool(*a),
            Value::Number(a) => Value::Number(*a),
            Value::Str(a) => Value::Str(a.share()),
            Value::Object(a) => Value::Object(*a),
            Value::Array(a) => Value::Array(*a),
            Value::Map(a) => Value::Map(*a),
            Value::Function(a) => Value::Function(*a),
            Value::Host => Value::Host,
        }
    }
}

impl<'a> Value<'a> {
    /// What `typeof` gives (ECMA-262, 13.5.3).
    pub fn type_word(&self) -> SharedText<'a>
        ensures { result ≡ type_word self.now }
    {
        match self {
            Value::Undefined => SharedText::new(&[117, 110, 100, 101, 102, 105, 110, 101, 100]),
            Value::Bool(_) => SharedText::new(&[98, 111, 111, 108, 101, 97, 110]),
            Value::Number(_) => SharedText::new(&[110, 117, 109, 98, 101, 114]),
            Value::Str(_) => SharedText::new(&[115, 116, 114, 105, 110, 103]),
            Value::Function(_) => SharedText::new(&[102, 117, 110, 99, 116, 105, 111, 110]),
            _ => SharedText::new(&[111, 98, 106, 101, 99, 116]),
        }
    }

    /// The truth value that a test asks for; nothing where the value is none.
    pub fn truth(&self) -> Option<bool>
        ensures { result ≡ truth_of self.now }
    {
        match self {
            Value::Bool(a) => Some(*a),
            _ => None,
        }
    }
}
