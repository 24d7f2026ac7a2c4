//! Changes of one list among many, in place.

ghost use Rattle.std.specs.Prelude.{◌≡◌, ◌<◌, length, [], ◌∷◌, ◌++◌, slice_set, OnOk};
ghost use Rattle.std.specs.Option.{is_some};
ghost use Rattle.std.specs.Map.{lookup, remove_entry};
ghost use Rattle.indexmap.specs.IndexMap.{insert_entry};
ghost use Rattle.store_lists.specs.Lists.{list_at, item_at, set_item, last_item, all_but_last};

use crate::entries::Entries;
use crate::pairs::Pairs;
use crate::share::Share;
use crate::slots::Slots;
use std::alloc::{AllocError, Global};
use std::hash::Hash;
use std::mem;

/// Gives a key of the pairs at a place a value.
#[tactic(auto, using(crate::proofs::Lists::set_nothing))]
pub fn put_at<K: Eq + Hash + Drop, V: Drop>(
    all: &mut Slots<Pairs<K, V>>,
    at: usize,
    key: K,
    value: V,
) -> Result<(), AllocError>
    ensures { OnOk result (all.new ≡ slice_set all.old at (insert_entry K.eq (list_at all.old at) key value)) }
{
    if at < all.len() {
        put_within(all, at, key, value)
    } else {
        Ok(())
    }
}

#[tactic(auto, using(crate::proofs::Lists::list_there))]
fn put_within<K: Eq + Hash + Drop, V: Drop>(
    all: &mut Slots<Pairs<K, V>>,
    at: usize,
    key: K,
    value: V,
) -> Result<(), AllocError>
    requires { at < length all.old }
    ensures { OnOk result (all.new ≡ slice_set all.old at (insert_entry K.eq (list_at all.old at) key value)) }
{
    all.items[at].put(key, value)
}

/// Adds an item to the list at a place.
#[tactic(auto, using(crate::proofs::Lists::set_nothing))]
pub fn push_at<T: Drop>(all: &mut Slots<Slots<T>>, at: usize, item: T) -> Result<(), AllocError>
    ensures { OnOk result (all.new ≡ slice_set all.old at (list_at all.old at ++ item ∷ [])) }
{
    if at < all.len() {
        push_within(all, at, item)
    } else {
        Ok(())
    }
}

#[tactic(auto, using(crate::proofs::Lists::list_there))]
fn push_within<T: Drop>(all: &mut Slots<Slots<T>>, at: usize, item: T) -> Result<(), AllocError>
    requires { at < length all.old }
    ensures { OnOk result (all.new ≡ slice_set all.old at (list_at all.old at ++ item ∷ [])) }
{
    all.items[at].push(item)
}

/// Takes the last item off the list at a place, where there is one.
#[tactic(auto, using(crate::proofs::Lists::set_nothing))]
pub fn pop_at<T>(all: &mut Slots<Slots<T>>, at: usize) -> Option<T>
    ensures item { result ≡ last_item (list_at all.old at) }
    ensures lists { all.new ≡ slice_set all.old at (all_but_last (list_at all.old at)) }
{
    if at < all.len() {
        pop_within(all, at)
    } else {
        None
    }
}

#[tactic(auto, using(crate::proofs::Lists::list_there))]
fn pop_within<T>(all: &mut Slots<Slots<T>>, at: usize) -> Option<T>
    requires { at < length all.old }
    ensures item { result ≡ last_item (list_at all.old at) }
    ensures lists { all.new ≡ slice_set all.old at (all_but_last (list_at all.old at)) }
{
    all.items[at].pop()
}

/// Puts an item in the place of another in the list at a place, and tells whether there is one.
#[tactic(auto, using(crate::proofs::Lists::set_nothing))]
pub fn set_at<T: Drop>(all: &mut Slots<Slots<T>>, at: usize, index: i64, item: T) -> bool
    ensures result { result ≡ is_some (item_at (list_at all.old at) index) }
    ensures lists { all.new ≡ slice_set all.old at (set_item (list_at all.old at) index item) }
{
    if at < all.len() {
        set_within(all, at, index, item)
    } else {
        false
    }
}

#[tactic(auto, using(crate::proofs::Lists::list_there))]
fn set_within<T: Drop>(all: &mut Slots<Slots<T>>, at: usize, index: i64, item: T) -> bool
    requires { at < length all.old }
    ensures result { result ≡ is_some (item_at (list_at all.old at) index) }
    ensures lists { all.new ≡ slice_set all.old at (set_item (list_at all.old at) index item) }
{
    all.items[at].put(index, item)
}

/// Drops the slots of removed keys where they are more than the others.
fn tidy<K: Eq + Hash + Share + Drop, V: Drop>(
    made: &mut Entries<K, V>,
    alloc: Global,
) -> Result<(), AllocError>
    ensures { OnOk result (made.new ≡ made.old) }
{
    if made.is_sparse() {
        let full = mem::replace(made, Entries::new(alloc));
        *made = full.tidied(alloc)?;
    }
    Ok(())
}

/// Gives a key of the entries at a place a value.
#[tactic(auto, using(crate::proofs::Lists::set_nothing))]
pub fn put_entry_at<K: Eq + Hash + Share + Drop, V: Drop>(
    all: &mut Slots<Entries<K, V>>,
    alloc: Global,
    at: usize,
    key: K,
    value: V,
) -> Result<(), AllocError>
    ensures { OnOk result (all.new ≡ slice_set all.old at (insert_entry K.eq (list_at all.old at) key value)) }
{
    if at < all.len() {
        put_entry_within(all, alloc, at, key, value)
    } else {
        Ok(())
    }
}

#[tactic(auto, using(crate::proofs::Lists::list_there))]
fn put_entry_within<K: Eq + Hash + Share + Drop, V: Drop>(
    all: &mut Slots<Entries<K, V>>,
    alloc: Global,
    at: usize,
    key: K,
    value: V,
) -> Result<(), AllocError>
    requires { at < length all.old }
    ensures { OnOk result (all.new ≡ slice_set all.old at (insert_entry K.eq (list_at all.old at) key value)) }
{
    put_tidily(&mut all.items[at], alloc, key, value)
}

fn put_tidily<K: Eq + Hash + Share + Drop, V: Drop>(
    made: &mut Entries<K, V>,
    alloc: Global,
    key: K,
    value: V,
) -> Result<(), AllocError>
    ensures { OnOk result (made.new ≡ insert_entry K.eq made.old key value) }
{
    tidy(made, alloc)?;
    made.put(key, value)
}

/// Takes a key off the entries at a place, and gives the value that it had.
#[tactic(auto, using(crate::proofs::Lists::set_nothing))]
pub fn remove_entry_at<K: Eq + Hash + Share + Drop, V: Drop>(
    all: &mut Slots<Entries<K, V>>,
    at: usize,
    key: &K,
) -> Option<V>
    ensures value { result ≡ lookup (K.eq key.now) (list_at all.old at) }
    ensures lists { all.new ≡ slice_set all.old at (remove_entry (K.eq key.now) (list_at all.old at)) }
{
    if at < all.len() {
        remove_entry_within(all, at, key)
    } else {
        None
    }
}

#[tactic(auto, using(crate::proofs::Lists::list_there))]
fn remove_entry_within<K: Eq + Hash + Share + Drop, V: Drop>(
    all: &mut Slots<Entries<K, V>>,
    at: usize,
    key: &K,
) -> Option<V>
    requires { at < length all.old }
    ensures value { result ≡ lookup (K.eq key.now) (list_at all.old at) }
    ensures lists { all.new ≡ slice_set all.old at (remove_entry (K.eq key.now) (list_at all.old at)) }
{
    all.items[at].remove(key)
}
