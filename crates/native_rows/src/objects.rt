//! Calls on the store's lists, objects and variables.

use crate::arguments::Arguments;
use crate::values::shown;
use anyhow::Result;
use dart_store::{Static, Store};
use std::alloc::{AllocError, Global};
use store_lists::Slots;

fn done(alloc: Global) -> Result<String, AllocError> {
    format!(in alloc; "done")
}

/// A new list of values.
pub fn make_list<'a>(store: &mut Store<'a>, args: &Arguments<'a, '_>) -> Result<String> {
    let mut items = Slots::new(args.alloc);
    for value in args.values()? {
        items.push(value)?;
    }
    Ok(shown(args.alloc, &store.make_list(items)?)?)
}

/// The items of a list, as many as it has, between brackets.
pub fn items<'a>(store: &Store<'a>, args: &Arguments<'a, '_>) -> Result<String> {
    let list = args.address(0, "list:")?;
    let mut all = String::from_str(args.alloc, "[")?;
    for at in 0..store.list_length(list) {
        if at > 0 {
            all.push_str(", ")?;
        }
        match store.read_item(list, i64::try_from(at)?) {
            Some(item) => all.push_str(shown(args.alloc, &item)?.as_str())?,
            None => all.push_str("none")?,
        }
    }
    all.push(']')?;
    Ok(all)
}

/// A new object of the class of this number.
pub fn make_object<'a>(store: &mut Store<'a>, args: &Arguments<'a, '_>) -> Result<String> {
    let object = store.make_object(args.alloc, args.number(0)?)?;
    Ok(shown(args.alloc, &object)?)
}

/// The number of the class of a value.
pub fn class_of<'a>(store: &Store<'a>, args: &Arguments<'a, '_>) -> Result<String> {
    let class = store.class_of(&args.value(0)?);
    Ok(format!(in args.alloc; "{class}")?)
}

/// What an object has in a field.
pub fn read_field<'a>(store: &Store<'a>, args: &Arguments<'a, '_>) -> Result<String> {
    let object = args.address(0, "object:")?;
    Ok(shown(args.alloc, &store.read_field(object, args.number(1)?))?)
}

/// Puts a value in a field of an object.
pub fn write_field<'a>(store: &mut Store<'a>, args: &Arguments<'a, '_>) -> Result<String> {
    let object = args.address(0, "object:")?;
    store.write_field(object, args.number(1)?, args.value(2)?)?;
    Ok(done(args.alloc)?)
}

/// A new cell with a value.
pub fn make_cell<'a>(store: &mut Store<'a>, args: &Arguments<'a, '_>) -> Result<String> {
    let cell = store.make_cell(args.value(0)?)?;
    Ok(format!(in args.alloc; "cell:{cell}")?)
}

/// The value in a cell.
pub fn read_cell<'a>(store: &Store<'a>, args: &Arguments<'a, '_>) -> Result<String> {
    let cell = args.address(0, "cell:")?;
    Ok(shown(args.alloc, &store.read_cell(cell))?)
}

/// Puts a value in a cell.
pub fn write_cell<'a>(store: &mut Store<'a>, args: &Arguments<'a, '_>) -> Result<String> {
    let cell = args.address(0, "cell:")?;
    store.write_cell(cell, args.value(1)?);
    Ok(done(args.alloc)?)
}

/// The state of the static variable of this number.
pub fn state<'a>(store: &Store<'a>, args: &Arguments<'a, '_>) -> Result<String> {
    let alloc = args.alloc;
    let text = match store.state(args.number(0)?) {
        Static::Waits => format!(in alloc; "waits")?,
        Static::Runs => format!(in alloc; "runs")?,
        Static::Has(value) => format!(in alloc; "has {}", shown(alloc, &value)?)?,
    };
    Ok(text)
}

/// The initialiser of a static variable runs.
pub fn begin_static<'a>(store: &mut Store<'a>, args: &Arguments<'a, '_>) -> Result<String> {
    store.begin_static(args.number(0)?)?;
    Ok(done(args.alloc)?)
}

/// Gives a static variable a value.
pub fn write_static<'a>(store: &mut Store<'a>, args: &Arguments<'a, '_>) -> Result<String> {
    store.write_static(args.number(0)?, args.value(1)?)?;
    Ok(done(args.alloc)?)
}
