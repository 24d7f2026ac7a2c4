//! Lists of the store, and the natives on them.

ghost use Rattle.std.specs.Prelude.{◌≡◌, length, OnOk, IfOk, Some};
ghost use Rattle.std.specs.Option.{is_some};
ghost use Rattle.dart_store.specs.declared.value.Value.TheVariants as v;
ghost use Rattle.dart_store.specs.Store.{items, with_list, read_item, write_item, push_item, popped_item, pop_item};
ghost use Rattle.dart_store.specs.Lists.{new_list, items_in, found, item, put_item, add_item, drop_item};

use crate::answers::{Applied, Thrower, count, has_room};
use crate::store::Store;
use crate::value::Value;
use std::alloc::{AllocError, Global};
use store_lists::{Share, Slots, changes};

impl<'a> Store<'a> {
    /// A new list with these items.
    pub fn make_list(&mut self, made: Slots<Value<'a>>) -> Result<Value<'a>, AllocError>
        ensures value { IfOk result (λ value. value ≡ v.List (length self.old.lists)) }
        ensures store { OnOk result (self.new ≡ with_list self.old made.entry) }
    {
        let address = self.lists.len();
        self.lists.push(made)?;
        Ok(Value::List(address))
    }

    /// How many items the list at an address has.
    pub fn list_length(&self, list: usize) -> u64
        ensures { result ≡ length (items self.now list) }
    {
        match self.lists.get(list) {
            Some(made) => made.len() as u64,
            None => 0,
        }
    }

    /// The item at an index of the list at an address, where the index is in range.
    pub fn read_item(&self, list: usize, index: i64) -> Option<Value<'a>>
        ensures { result ≡ read_item self.now list index }
    {
        let at = usize::try_from(index).ok()?;
        Some(self.lists.get(list)?.get(at)?.share())
    }

    /// Puts a value at an index of the list at an address, and tells whether the index is in range; where it is not,
    /// nothing changes.
    pub fn write_item(&mut self, list: usize, index: i64, value: Value<'a>) -> bool
        ensures result { result ≡ is_some (read_item self.old list index) }
        ensures store { self.new ≡ write_item self.old list index value.entry }
    {
        changes::set_at(&mut self.lists, list, index, value)
    }

    /// Adds an item behind all others of the list at an address.
    pub fn push_item(&mut self, list: usize, value: Value<'a>) -> Result<(), AllocError>
        ensures { OnOk result (self.new ≡ push_item self.old list value.entry) }
    {
        changes::push_at(&mut self.lists, list, value)
    }

    /// Takes the last item off the list at an address, where there is one.
    pub fn pop_item(&mut self, list: usize) -> Option<Value<'a>>
        ensures value { result ≡ popped_item self.old list }
        ensures store { self.new ≡ pop_item self.old list }
    {
        changes::pop_at(&mut self.lists, list)
    }
}

/// A new list.
pub fn new_list<'a>(alloc: Global, store: &mut Store<'a>) -> Result<Applied<'a>, AllocError>
    ensures applied { IfOk result (λ applied. applied ≡ (new_list store.old).0) }
    ensures store { OnOk result (store.new ≡ (new_list store.old).1) }
{
    let made = store.make_list(Slots::new(alloc))?;
    Ok(Applied::Gives(made))
}

/// How many items there are.
pub fn items_in<'a>(store: &Store<'a>, a: Option<usize>) -> Applied<'a>
    ensures { result ≡ items_in store.now a }
{
    match a {
        Some(a) => count(store.list_length(a)),
        None => Applied::Throws(Thrower::Argument),
    }
}

fn found<'a>(value: Option<Value<'a>>) -> Applied<'a>
    ensures { result ≡ found value.entry }
{
    match value {
        Some(value) => Applied::Gives(value),
        None => Applied::Throws(Thrower::Range),
    }
}

/// The item at an index in range.
pub fn item<'a>(store: &Store<'a>, a: Option<usize>, b: Option<i64>) -> Applied<'a>
    ensures { result ≡ item store.now a b }
{
    match (a, b) {
        (Some(a), Some(b)) => found(store.read_item(a, b)),
        _ => Applied::Throws(Thrower::Argument),
    }
}

/// Puts a value at an index in range.
pub fn put_item<'a>(
    store: &mut Store<'a>,
    a: Option<usize>,
    b: Option<i64>,
    c: Option<Value<'a>>,
) -> Applied<'a>
    ensures applied { result ≡ (put_item store.old a b c.entry).0 }
    ensures store { store.new ≡ (put_item store.old a b c.entry).1 }
{
    match (a, b, c) {
        (Some(a), Some(b), Some(c)) => put_found(store, a, b, c),
        _ => Applied::Throws(Thrower::Argument),
    }
}

fn put_found<'a>(store: &mut Store<'a>, a: usize, b: i64, c: Value<'a>) -> Applied<'a>
    ensures applied { result ≡ (put_item store.old (Some a) (Some b) (Some c.entry)).0 }
    ensures store { store.new ≡ (put_item store.old (Some a) (Some b) (Some c.entry)).1 }
{
    if store.read_item(a, b).is_some() {
        store.write_item(a, b, c);
        Applied::Gives(Value::Null)
    } else {
        Applied::Throws(Thrower::Range)
    }
}

/// Adds a value behind all items.
pub fn add_item<'a>(
    store: &mut Store<'a>,
    a: Option<usize>,
    b: Option<Value<'a>>,
) -> Result<Applied<'a>, AllocError>
    ensures applied { IfOk result (λ applied. applied ≡ (add_item store.old a b.entry).0) }
    ensures store { OnOk result (store.new ≡ (add_item store.old a b.entry).1) }
{
    match (a, b) {
        (Some(a), Some(b)) => {
            if has_room(store.list_length(a)) {
                store.push_item(a, b)?;
                Ok(Applied::Gives(Value::Null))
            } else {
                Ok(Applied::Leaves)
            }
        }
        _ => Ok(Applied::Throws(Thrower::Argument)),
    }
}

/// Takes the last item off, and gives it.
pub fn drop_item<'a>(store: &mut Store<'a>, a: Option<usize>) -> Applied<'a>
    ensures applied { result ≡ (drop_item store.old a).0 }
    ensures store { store.new ≡ (drop_item store.old a).1 }
{
    match a {
        Some(a) => {
            if store.list_length(a) == 0 {
                Applied::Throws(Thrower::Range)
            } else {
                found(store.pop_item(a))
            }
        }
        None => Applied::Throws(Thrower::Argument),
    }
}
