//! Values as keys: `===`, and a hash that agrees with it.

ghost use Rattle.std.specs.Cmp.{partial_equiv_from_equiv};
ghost use Rattle.js_store.specs.Values.{same};
ghost use Rattle.js_store.specs.Equality.{same_laws, fed_value, equal_fed};

use crate::value::Value;
use std::hash::{Hash, Hasher};

impl<'a> PartialEq for Value<'a> {
    ghost eq = { same };

    ghost laws = { partial_equiv_from_equiv same_laws };

    fn eq(&self, other: &Value<'a>) -> bool {
        match self {
            Value::Undefined => matches!(other, Value::Undefined),
            Value::Null => matches!(other, Value::Null),
            Value::Bool(a) => match other {
                Value::Bool(b) => *a == *b,
                _ => false,
            },
            Value::Number(a) => match other {
                Value::Number(b) => *a == *b,
                _ => false,
            },
            Value::Str(a) => match other {
                Value::Str(b) => a == b,
                _ => false,
            },
            Value::Object(a) => match other {
                Value::Object(b) => *a == *b,
                _ => false,
            },
            Value::Array(a) => match other {
                Value::Array(b) => *a == *b,
                _ => false,
            },
            Value::Map(a) => match other {
                Value::Map(b) => *a == *b,
                _ => false,
            },
            Value::Function(a) => match other {
                Value::Function(b) => *a == *b,
                _ => false,
            },
            Value::Host => matches!(other, Value::Host),
        }
    }
}

impl<'a> Eq for Value<'a> {
    ghost laws = { same_laws };
}

impl<'a> Hash for Value<'a> {
    ghost hash_input = { fed_value };

    ghost respects_eq = { equal_fed.fed };

    fn hash<H: Hasher>(&self, state: &mut H) {
        match self {
            Value::Undefined => state.write_u8(0),
            Value::Null => state.write_u8(1),
            Value::Bool(a) => {
                state.write_u8(2);
                a.hash(state);
            }
            Value::Number(a) => {
                state.write_u8(3);
                a.hash(state);
            }
            Value::Str(a) => {
                state.write_u8(4);
                a.hash(state);
            }
            Value::Object(a) => {
                state.write_u8(5);
                a.hash(state);
            }
            Value::Array(a) => {
                state.write_u8(6);
                a.hash(state);
            }
            Value::Map(a) => {
                state.write_u8(7);
                a.hash(state);
            }
            Value::Function(a) => {
                state.write_u8(8);
                a.hash(state);
            }
            Value::Host => state.write_u8(9),
        }
    }
}
