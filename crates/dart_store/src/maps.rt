//! Maps of the store, and the natives on them.

ghost use Rattle.std.specs.Prelude.{◌≡◌, length, OnOk, IfOk, Some};
ghost use Rattle.std.specs.Option.{is_some, option_copied, unwrap_or};
ghost use Rattle.std.specs.Prelude.{◌||◌};
ghost use Rattle.dart_store.specs.Answers.{has_room};
ghost use Rattle.dart_store.specs.declared.value.Value.TheVariants as v;
ghost use Rattle.dart_store.specs.Store.{entries, with_map, read_entry, write_entry, remove_key, keys};
ghost use Rattle.dart_store.specs.Maps.{new_map, keys_in, entry, put_entry, has_key, drop_entry, list_keys};

use crate::answers::{Applied, Thrower, count, has_room};
use crate::store::Store;
use crate::value::Value;
use std::alloc::{AllocError, Global};
use store_lists::{Entries, Share, Slots, changes};

impl<'a> Store<'a> {
    /// A new map without a key.
    pub fn make_map(&mut self, alloc: Global) -> Result<Value<'a>, AllocError>
        ensures value { IfOk result (λ value. value ≡ v.Map (length self.old.maps)) }
        ensures store { OnOk result (self.new ≡ with_map self.old) }
    {
        let address = self.maps.len();
        self.maps.push(Entries::new(alloc))?;
        Ok(Value::Map(address))
    }

    /// How many keys the map at an address has.
    pub fn map_length(&self, map: usize) -> u64
        ensures { result ≡ length (entries self.now map) }
    {
        match self.maps.get(map) {
            Some(made) => made.len() as u64,
            None => 0,
        }
    }

    /// The value of a key of the map at an address, where it has the key.
    pub fn read_entry(&self, map: usize, key: &Value<'a>) -> Option<Value<'a>>
        ensures { result ≡ read_entry self.now map key.now }
    {
        Some(self.maps.get(map)?.get(key)?.share())
    }

    /// Gives a key of the map at an address a value. A key that is there keeps its place, and a new one goes last.
    pub fn write_entry(
        &mut self,
        alloc: Global,
        map: usize,
        key: Value<'a>,
        value: Value<'a>,
    ) -> Result<(), AllocError>
        ensures { OnOk result (self.new ≡ write_entry self.old map key.entry value.entry) }
    {
        changes::put_entry_at(&mut self.maps, alloc, map, key, value)
    }

    /// Takes a key off the map at an address, and gives the value that it had.
    pub fn remove_key(&mut self, map: usize, key: &Value<'a>) -> Option<Value<'a>>
        ensures value { result ≡ read_entry self.old map key.now }
        ensures store { self.new ≡ remove_key self.old map key.now }
    {
        changes::remove_entry_at(&mut self.maps, map, key)
    }

    /// The keys of the map at an address, in the order in which they came.
    pub fn map_keys(&self, alloc: Global, map: usize) -> Result<Slots<Value<'a>>, AllocError>
        ensures { IfOk result (λ list. list ≡ keys self.now map) }
    {
        match self.maps.get(map) {
            Some(made) => made.keys(alloc),
            None => Ok(Slots::new(alloc)),
        }
    }
}

/// A new map.
pub fn new_map<'a>(alloc: Global, store: &mut Store<'a>) -> Result<Applied<'a>, AllocError>
    ensures applied { IfOk result (λ applied. applied ≡ (new_map store.old).0) }
    ensures store { OnOk result (store.new ≡ (new_map store.old).1) }
{
    let made = store.make_map(alloc)?;
    Ok(Applied::Gives(made))
}

/// How many keys there are.
pub fn keys_in<'a>(store: &Store<'a>, a: Option<usize>) -> Applied<'a>
    ensures { result ≡ keys_in store.now a }
{
    match a {
        Some(a) => count(store.map_length(a)),
        None => Applied::Throws(Thrower::Argument),
    }
}

/// A value, or null where there is none.
fn or_null<'a>(value: Option<Value<'a>>) -> Value<'a>
    ensures { result ≡ unwrap_or value.entry v.Null }
{
    match value {
        Some(value) => value,
        None => Value::Null,
    }
}

/// The value of a key, or null.
pub fn entry<'a>(store: &Store<'a>, a: Option<usize>, b: Option<&Value<'a>>) -> Applied<'a>
    ensures { result ≡ entry store.now a (option_copied b.entry) }
{
    match (a, b) {
        (Some(a), Some(b)) => Applied::Gives(or_null(store.read_entry(a, b))),
        _ => Applied::Throws(Thrower::Argument),
    }
}

/// Gives a key a value.
pub fn put_entry<'a>(
    alloc: Global,
    store: &mut Store<'a>,
    a: Option<usize>,
    b: Option<Value<'a>>,
    c: Option<Value<'a>>,
) -> Result<Applied<'a>, AllocError>
    ensures applied { IfOk result (λ applied. applied ≡ (put_entry store.old a b.entry c.entry).0) }
    ensures store { OnOk result (store.new ≡ (put_entry store.old a b.entry c.entry).1) }
{
    match (a, b, c) {
        (Some(a), Some(b), Some(c)) => put_found(alloc, store, a, b, c),
        _ => Ok(Applied::Throws(Thrower::Argument)),
    }
}

fn put_found<'a>(
    alloc: Global,
    store: &mut Store<'a>,
    a: usize,
    b: Value<'a>,
    c: Value<'a>,
) -> Result<Applied<'a>, AllocError>
    ensures applied { IfOk result (λ applied. applied ≡ (put_entry store.old (Some a) (Some b.entry) (Some c.entry)).0) }
    ensures store { OnOk result (store.new ≡ (put_entry store.old (Some a) (Some b.entry) (Some c.entry)).1) }
{
    if takes_key(store, a, &b) {
        store.write_entry(alloc, a, b, c)?;
        Ok(Applied::Gives(Value::Null))
    } else {
        Ok(Applied::Leaves)
    }
}

/// Whether a map has a key, or has room for it.
fn takes_key<'a>(store: &Store<'a>, a: usize, b: &Value<'a>) -> bool
    ensures { result ≡ (has_room (length (entries store.now a)) || is_some (read_entry store.now a b.now)) }
{
    has_room(store.map_length(a)) || store.read_entry(a, b).is_some()
}

/// Whether a key is there.
pub fn has_key<'a>(store: &Store<'a>, a: Option<usize>, b: Option<&Value<'a>>) -> Applied<'a>
    ensures { result ≡ has_key store.now a (option_copied b.entry) }
{
    match (a, b) {
        (Some(a), Some(b)) => Applied::Gives(Value::Bool(store.read_entry(a, b).is_some())),
        _ => Applied::Throws(Thrower::Argument),
    }
}

/// The value of a key, or null; the key is gone.
pub fn drop_entry<'a>(store: &mut Store<'a>, a: Option<usize>, b: Option<&Value<'a>>) -> Applied<'a>
    ensures applied { result ≡ (drop_entry store.old a (option_copied b.entry)).0 }
    ensures store { store.new ≡ (drop_entry store.old a (option_copied b.entry)).1 }
{
    match (a, b) {
        (Some(a), Some(b)) => Applied::Gives(or_null(store.remove_key(a, b))),
        _ => Applied::Throws(Thrower::Argument),
    }
}

/// A new list of the keys.
pub fn list_keys<'a>(
    alloc: Global,
    store: &mut Store<'a>,
    a: Option<usize>,
) -> Result<Applied<'a>, AllocError>
    ensures applied { IfOk result (λ applied. applied ≡ (list_keys store.old a).0) }
    ensures store { OnOk result (store.new ≡ (list_keys store.old a).1) }
{
    match a {
        Some(a) => {
            let keys = store.map_keys(alloc, a)?;
            let made = store.make_list(keys)?;
            Ok(Applied::Gives(made))
        }
        None => Ok(Applied::Throws(Thrower::Argument)),
    }
}
