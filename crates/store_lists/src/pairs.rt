//! Keys with values, from which nothing is removed.

ghost use Rattle.std.specs.Prelude.{◌≡◌, [], length, position, OnOk, OnErr};
ghost use Rattle.std.specs.Option.{option_copied};
ghost use Rattle.std.specs.Map.{lookup, keys_of};
ghost use Rattle.indexmap.specs.IndexMap.{insert_entry};

use indexmap::IndexMap;
use std::alloc::{AllocError, Global};
use std::hash::Hash;
use std::marker::Model;

/// Keys with their values, hashed; seen as the list of the pairs in the order in which the keys came.
#[derive(Drop)]
pub struct Pairs<K: Eq + Hash, V> {
    map: IndexMap<K, V>,
}

impl<K: Eq + Hash, V> Model for Pairs<K, V> {
    ghost use Rattle.std.specs.Prelude.{List};

    ghost Value = { List (K × V) };

    ghost view = { λ pairs. pairs.map.entries };
}

impl<K: Eq + Hash, V> Pairs<K, V> {
    /// No key.
    pub fn new(alloc: Global) -> Self
        ensures { result ≡ [] }
    {
        Pairs {
            map: IndexMap::new(alloc),
        }
    }

    /// How many keys there are.
    pub fn len(&self) -> usize
        ensures { result ≡ length self.now }
    {
        self.map.len()
    }

    /// The value of a key.
    pub fn get(&self, key: &K) -> Option<&V>
        ensures { option_copied result ≡ lookup (K.eq key.now) self.now }
    {
        self.map.get(key)
    }

    /// The place of a key among the keys.
    pub fn position(&self, key: &K) -> Option<usize>
        ensures { result ≡ position (K.eq key.now) (keys_of self.now) }
    {
        self.map.get_index_of(key)
    }
}

impl<K: Eq + Hash + Drop, V: Drop> Pairs<K, V> {
    /// Gives a key a value. A key that is there keeps its place, and a new one goes last. Want of memory leaves all as it
    /// was.
    pub fn put(&mut self, key: K, value: V) -> Result<(), AllocError>
        ensures ok { OnOk result (self.new ≡ insert_entry K.eq self.old key value) }
        ensures err { OnErr result (self.new ≡ self.old) }
    {
        self.map.insert(key, value)?;
        Ok(())
    }
}
