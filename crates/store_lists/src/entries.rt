//! Keys with values, from which keys are removed.

ghost use Rattle.std.specs.Prelude.{◌≡◌, ◌<◌, [], None, length, slice_get, slice_set, OnOk, OnErr, IfOk};
ghost use Rattle.std.specs.Option.{option_copied};
ghost use Rattle.std.specs.Map.{lookup, remove_entry, keys_of};
ghost use Rattle.store_lists.specs.Kept.{kept, value_in, with_key, with_value};
ghost use Rattle.indexmap.specs.IndexMap.{insert_entry};

use crate::share::Share;
use crate::slots::Slots;
use std::alloc::{AllocError, Global};
use std::collections::HashMap;
use std::hash::Hash;
use std::marker::Model;

/// Keys with their values, hashed; seen as the list of the pairs in the order in which the keys came. An entry that is
/// removed leaves its slot empty.
#[derive(Drop)]
pub struct Entries<K: Eq + Hash, V> {
    places: HashMap<K, usize>,
    slots: Slots<Option<(K, V)>>,
}

impl<K: Eq + Hash, V> Model for Entries<K, V> {
    ghost use Rattle.std.specs.Prelude.{List};
    ghost use Rattle.std.specs.Prelude.{◌≡◌, length};
    ghost use Rattle.std.specs.HashMap.{get, hash_map_len};
    ghost use Rattle.store_lists.specs.Kept.{kept, IsIndexed};

    ghost Value = { List (K × V) };

    ghost view = { λ m. kept m.slots };

    ghost invariant = { λ m. IsIndexed K.eq (get K.eq m.places) m.slots × (hash_map_len m.places ≡ length (kept m.slots)) };
}

impl<K: Eq + Hash + Share + Drop, V: Drop> Entries<K, V> {
    /// No key.
    pub fn new(alloc: Global) -> Self
        ensures { result ≡ [] }
    {
        Entries {
            places: HashMap::new(alloc),
            slots: Slots::new(alloc),
        }
    }

    /// The value of a key.
    pub fn get(&self, key: &K) -> Option<&V>
        ensures { option_copied result ≡ lookup (K.eq key.now) self.now }
    {
        match self.places.get(key) {
            None => None,
            Some(at) => value_at(&self.slots, *at),
        }
    }

    /// Takes a key off, and gives its value.
    pub fn remove(&mut self, key: &K) -> Option<V>
        ensures value { result ≡ lookup (K.eq key.now) self.old }
        ensures rest { self.new ≡ remove_entry (K.eq key.now) self.old }
    {
        match self.places.remove(key) {
            None => None,
            Some(at) => take_at(&mut self.slots, at),
        }
    }

    /// How many keys there are.
    pub fn len(&self) -> usize
        ensures { result ≡ length self.now }
    {
        self.places.len()
    }

    /// The keys, in order.
    pub fn keys(&self, alloc: Global) -> Result<Slots<K>, AllocError>
        ensures { IfOk result (λ keys. keys ≡ keys_of self.now) }
    {
        keys_in(&self.slots, alloc)
    }

    /// Whether more slots are empty than full, and some more.
    pub fn is_sparse(&self) -> bool {
        self.slots.len() / 2 > self.places.len() + 8
    }

    /// The same map with no empty slots.
    pub fn tidied(self, alloc: Global) -> Result<Self, AllocError>
        ensures { IfOk result (λ map. map ≡ self) }
    {
        let Entries { places, mut slots } = self;
        drop(places);
        let mut done = Entries::new(alloc);
        for i in 0..slots.len() {
            match slots.replace(i, None) {
                Some((key, value)) => done.put(key, value)?,
                None => {}
            }
        }
        Ok(done)
    }

    /// Gives a key a value. A key that is there keeps its place, and a new one goes last. Want of memory leaves all as it
    /// was.
    pub fn put(&mut self, key: K, value: V) -> Result<(), AllocError>
        ensures ok { OnOk result (self.new ≡ insert_entry K.eq self.old key value) }
        ensures err { OnErr result (self.new ≡ self.old) }
    {
        match self.places.get(&key) {
            Some(at) => {
                put_at(&mut self.slots, *at, value);
                Ok(())
            }
            None => {
                let at = self.slots.len();
                self.slots.push(None)?;
                self.places.insert(key.share(), at)?;
                self.slots.replace(at, Some((key, value)));
                Ok(())
            }
        }
    }
}

/// The value of the entry in the slot at `at`.
fn value_at<K, V>(slots: &Slots<Option<(K, V)>>, at: usize) -> Option<&V>
    ensures { option_copied result ≡ value_in (slice_get slots.now at) }
{
    match slots.get(at) {
        Some(Some((_, value))) => Some(value),
        _ => None,
    }
}

/// Empties the slot at `at`, and gives the value that it had.
fn take_at<K: Drop, V: Drop>(slots: &mut Slots<Option<(K, V)>>, at: usize) -> Option<V>
    requires { at < length slots.old }
    ensures value { result ≡ value_in (slice_get slots.old at) }
    ensures rest { slots.new ≡ slice_set slots.old at None }
{
    match slots.replace(at, None) {
        Some((_, value)) => Some(value),
        None => None,
    }
}

/// Gives the entry in the slot at `at` the value `value`.
fn put_at<K: Drop, V: Drop>(slots: &mut Slots<Option<(K, V)>>, at: usize, value: V)
    requires { at < length slots.old }
    ensures { slots.new ≡ slice_set slots.old at (with_value (slice_get slots.old at) value) }
{
    match slots.replace(at, None) {
        Some((key, _)) => {
            slots.replace(at, Some((key, value)));
        }
        None => {}
    }
}

/// The keys of the entries in `slots`.
#[tactic(auto, using(crate::proofs::Tidied::keys_step, crate::proofs::Tidied::keys_end))]
fn keys_in<K: Share + Drop, V>(
    slots: &Slots<Option<(K, V)>>,
    alloc: Global,
) -> Result<Slots<K>, AllocError>
    ensures { IfOk result (λ keys. keys ≡ keys_of (kept slots.now)) }
{
    let mut keys = Slots::new(alloc);
    for i in 0..slots.len() {
        push_key(&mut keys, slots, i)?;
    }
    Ok(keys)
}

/// Adds the key of the entry in the slot at `at`.
fn push_key<K: Share + Drop, V>(
    keys: &mut Slots<K>,
    slots: &Slots<Option<(K, V)>>,
    at: usize,
) -> Result<(), AllocError>
    ensures { OnOk result (keys.new ≡ with_key keys.old (slice_get slots.now at)) }
{
    match slots.get(at) {
        Some(Some((key, _))) => {
            keys.push(key.share())?;
            Ok(())
        }
        _ => Ok(()),
    }
}
