//! Values as keys: `==`, and a hash that agrees with it.

ghost use Rattle.std.specs.Cmp.{partial_equiv_from_equiv};
ghost use Rattle.dart_store.specs.Values.{same};
ghost use Rattle.dart_store.specs.Equality.{same_laws, fed_value, equal_fed};

use crate::value::Value;
use std::hash::{Hash, Hasher};

impl<'a> PartialEq for Value<'a> {
    ghost eq = { same };

    ghost laws = { partial_equiv_from_equiv same_laws };

    fn eq(&self, other: &Value<'a>) -> bool {
        match self {
            Value::Null => matches!(other, Value::Null),
            Value::Bool(a) => match other {
                Value::Bool(b) => *a == *b,
                _ => false,
            },
            Value::Int(a) => match other {
                Value::Int(b) => *a == *b,
                _ => false,
            },
            Value::Text(a) => match other {
                Value::Text(b) => a == b,
                _ => false,
            },
            Value::Object(a) => match other {
                Value::Object(b) => *a == *b,
                _ => false,
            },
            Value::List(a) => match other {
                Value::List(b) => *a == *b,
                _ => false,
            },
            Value::Map(a) => match other {
                Value::Map(b) => *a == *b,
                _ => false,
            },
            Value::Function(a) => match other {
                Value::Function(b) => *a == *b,
                _ => false,
            },
            Value::Static(a) => match other {
                Value::Static(b) => *a == *b,
                _ => false,
            },
        }
    }
}

impl<'a> Eq for Value<'a> {
    ghost laws = { same_laws };
}

impl<'a> Hash for Value<'a> {
    ghost hash_input = { fed_value };

    ghost respects_eq = { equal_fed.fed };

    fn hash<H: Hasher>(&self, state: &mut H) {
        match self {
            Value::Null => state.write_u8(0),
            Value::Bool(a) => {
                state.write_u8(1);
                a.hash(state);
            }
            Value::Int(a) => {
                state.write_u8(2);
                a.hash(state);
            }
            Value::Text(a) => {
                state.write_u8(3);
                a.hash(state);
            }
            Value::Object(a) => {
                state.write_u8(4);
                a.hash(state);
            }
            Value::List(a) => {
                state.write_u8(5);
                a.hash(state);
            }
            Value::Map(a) => {
                state.write_u8(6);
                a.hash(state);
            }
            Value::Function(a) => {
                state.write_u8(7);
                a.hash(state);
            }
            Value::Static(a) => {
                state.write_u8(8);
                a.hash(state);
            }
        }
    }
}
