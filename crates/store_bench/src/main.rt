//! Has natives work on a store, as often as the second argument says.
//!
//! `map` puts so many keys into a map, gets each of them again, and says how many had their values. `text` appends so many
//! times one unit to a text, and says how many units it has. It ends with status 1 and the reason where the words are others
//! or memory is wanting.
#![tactic(auto)]

use anyhow::{Context, Result, bail};
use bumpalo::Bump;
use dart_store::{Applied, Native, Store, Value, apply_native};
use std::alloc::{AllocError, Global};
use std::env;
use store_lists::{SharedText, Slots};

fn put_all<'a>(
    alloc: Global,
    arena: &'a Bump,
    store: &mut Store<'a>,
    count: u32,
) -> Result<(), AllocError> {
    for key in 0..count {
        let number = i64::from(key);
        let args = [Value::Map(0), Value::Int(number), Value::Int(number)];
        apply_native(alloc, arena, store, Native::MapPut, &args)?;
    }
    Ok(())
}

// Whether a key has itself as its value.
fn has_value<'a>(
    alloc: Global,
    arena: &'a Bump,
    store: &mut Store<'a>,
    key: i64,
) -> Result<bool, AllocError> {
    let args = [Value::Map(0), Value::Int(key)];
    match apply_native(alloc, arena, store, Native::MapAt, &args)? {
        Applied::Gives(Value::Int(number)) => Ok(number == key),
        _ => Ok(false),
    }
}

// How many of the keys have their values.
fn get_all<'a>(
    alloc: Global,
    arena: &'a Bump,
    store: &mut Store<'a>,
    count: u32,
) -> Result<u64, AllocError> {
    let mut right: u64 = 0;
    for key in 0..count {
        if has_value(alloc, arena, store, i64::from(key))? {
            right = right.saturating_add(1);
        }
    }
    Ok(right)
}

// How many keys of a map had their values.
fn map_keys(alloc: Global, count: u32) -> Result<u64, AllocError> {
    let arena = Bump::new(alloc);
    let mut store = Store::new(alloc, Slots::new(alloc), &[]);
    store.make_map(alloc)?;
    put_all(alloc, &arena, &mut store, count)?;
    get_all(alloc, &arena, &mut store, count)
}

// A text with one unit more behind it.
fn longer<'a>(
    alloc: Global,
    arena: &'a Bump,
    store: &mut Store<'a>,
    text: Value<'a>,
) -> Result<Value<'a>, AllocError> {
    let args = [text, Value::Text(SharedText::new(&[0x61]))];
    match apply_native(alloc, arena, store, Native::TextJoin, &args)? {
        Applied::Gives(value) => Ok(value),
        _ => Ok(Value::Null),
    }
}

fn units_in(text: &Value) -> u64 {
    match text {
        Value::Text(text) => text.len(),
        _ => 0,
    }
}

// How many units a text has that was made so.
fn text_units(alloc: Global, count: u32) -> Result<u64, AllocError> {
    let arena = Bump::new(alloc);
    let mut store = Store::new(alloc, Slots::new(alloc), &[]);
    let mut text = Value::Text(SharedText::new(&[]));
    for _ in 0..count {
        text = longer(alloc, &arena, &mut store, text)?;
    }
    Ok(units_in(&text))
}

fn main(rt: HostRuntime) -> Result<()> {
    let mut words = env::args(&rt)?.skip(1);
    let command = words.next().context("no command is given")?;
    let number = words.next().context("no count is given")?;
    let Ok(count) = number.parse::<u32>() else {
        bail!("the count is no number");
    };
    match command.as_str() {
        "map" => {
            let right = map_keys(rt.alloc(), count)?;
            println!(rt; "{right} keys")?;
        }
        "text" => {
            let units = text_units(rt.alloc(), count)?;
            println!(rt; "{units} units")?;
        }
        _ => bail!("the commands are `map` and `text`"),
    }
    Ok(())
}
