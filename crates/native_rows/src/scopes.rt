//! Maps and names of JavaScript.

use bumpalo::Bump;
use js_store::{Entries, Env, Name, Pairs, Scope, SharedText, Store, Value};
use std::alloc::{AllocError, Global};

// A number or what has no value, as it is shown.
fn shown(alloc: Global, value: &Value) -> Result<String, AllocError> {
    match value {
        Value::Number(number) => format!(in alloc; "{number}"),
        Value::Host => format!(in alloc; "the host"),
        _ => format!(in alloc; "another value"),
    }
}

// ---- maps

// A changed key keeps its place, and one that is removed and put again goes last.
pub fn keys_of_a_map(alloc: Global) -> Result<String, AllocError> {
    let mut map = Entries::new(alloc);
    map.put(Value::Number(1), Value::Null)?;
    map.put(Value::Number(2), Value::Null)?;
    map.put(Value::Number(3), Value::Null)?;
    map.put(Value::Number(1), Value::Undefined)?;
    map.remove(&Value::Number(2));
    map.put(Value::Number(2), Value::Null)?;
    let mut answers = String::new(alloc);
    for key in map.keys(alloc)?.as_slice() {
        writeln!(answers, "{}", shown(alloc, key)?)?;
    }
    Ok(answers)
}

pub fn keys_of_each_kind(alloc: Global) -> Result<String, AllocError> {
    let mut map = Entries::new(alloc);
    map.put(Value::Undefined, Value::Null)?;
    map.put(Value::Null, Value::Null)?;
    map.put(Value::Bool(false), Value::Null)?;
    map.put(Value::Number(0), Value::Null)?;
    map.put(Value::Str(SharedText::new(&[])), Value::Null)?;
    map.put(Value::Str(SharedText::new(&[48])), Value::Null)?;
    map.put(Value::Object(0), Value::Null)?;
    map.put(Value::Array(0), Value::Null)?;
    map.put(Value::Map(0), Value::Null)?;
    map.put(Value::Function(0), Value::Null)?;
    map.put(Value::Host, Value::Null)?;
    format!(in alloc; "{} keys\n", map.len())
}

// ---- names

fn one_name<'a>(alloc: Global, bound: Option<Value<'a>>) -> Result<Scope<'a>, AllocError> {
    let mut scope = Pairs::new(alloc);
    scope.put(Name::new(b"x$"), bound)?;
    Ok(scope)
}

// What the name `x$` has.
fn seen(alloc: Global, store: &Store, env: &Env) -> Result<String, AllocError> {
    match store.look_up(env, &Name::new(b"x$")) {
        Some(value) => shown(alloc, &value),
        None => format!(in alloc; "none"),
    }
}

// The inner name hides the outer one before its `let` has run, and can't be assigned then.
pub fn a_let_that_has_not_run(alloc: Global) -> Result<String, AllocError> {
    let arena = Bump::new(alloc);
    let mut store = Store::new(alloc);
    let mut answers = String::new(alloc);
    store.declare(Name::new(b"x$"), Some(Value::Number(1)))?;
    let top = Env::top();
    let scope = one_name(alloc, None)?;
    let inner = store.enter(&arena, &top, scope)?;
    writeln!(answers, "before: {}", seen(alloc, &store, &inner)?)?;
    let done = store.assign(&inner, &Name::new(b"x$"), Value::Number(2))?;
    writeln!(answers, "assigned: {done}")?;
    store.initialise(&inner, &Name::new(b"x$"), Value::Number(3))?;
    writeln!(answers, "inside: {}", seen(alloc, &store, &inner)?)?;
    writeln!(answers, "outside: {}", seen(alloc, &store, &top)?)?;
    Ok(answers)
}

pub fn an_outer_name_is_assigned(alloc: Global) -> Result<String, AllocError> {
    let arena = Bump::new(alloc);
    let mut store = Store::new(alloc);
    let scope = one_name(alloc, Some(Value::Number(1)))?;
    let outer = store.enter(&arena, &Env::top(), scope)?;
    let inner = store.enter(&arena, &outer, Pairs::new(alloc))?;
    let done = store.assign(&inner, &Name::new(b"x$"), Value::Number(2))?;
    let value = seen(alloc, &store, &outer)?;
    format!(in alloc; "assigned: {done}\noutside: {value}\n")
}

pub fn the_name_of_the_host(alloc: Global) -> Result<String, AllocError> {
    let store = Store::new(alloc);
    match store.look_up(&Env::top(), &Name::new(b"host$")) {
        Some(value) => format!(in alloc; "{}\n", shown(alloc, &value)?),
        None => format!(in alloc; "none\n"),
    }
}
