//! Names with their numbers, found by hashing.
ghost use Rattle.std.specs.Prelude.{◌≡◌, ◌++◌, ◌∷◌, [], None, is_some, OnOk, OnErr};
ghost use Rattle.source_loading.specs.Numbers.{numbered};

use indexmap::IndexMap;
use std::alloc::{AllocError, Global};
use std::marker::Model;

/// Names with their numbers, in the order in which they were put in.
#[derive(Drop)]
pub struct Numbers {
    entries: IndexMap<Vec<u16>, usize>,
}

impl Model for Numbers {
    ghost use Rattle.std.specs.Prelude.{List, ℕ, map};

    ghost Value = { List (List ℕ × ℕ) };

    ghost view = { λ numbers. map (λ e. (e.0.items, e.1)) numbers.entries.entries };
}

impl Numbers {
    /// No name.
    pub fn new(alloc: Global) -> Numbers
        ensures { result ≡ [] }
    {
        Numbers {
            entries: IndexMap::new(alloc),
        }
    }

    /// Where they take their memory from.
    pub fn allocator(&self) -> Global {
        *self.entries.allocator()
    }

    /// The number of a name.
    pub fn find(&self, name: &[u16]) -> Option<usize>
        ensures { result ≡ numbered name.now self.now }
    {
        self.entries.get(name).copied()
    }

    /// Whether a name is there.
    pub fn has(&self, name: &[u16]) -> bool
        ensures { result ≡ is_some (numbered name.now self.now) }
    {
        self.find(name).is_some()
    }

    /// Puts in a name that isn't there. Want of memory leaves them as they were.
    pub fn put(&mut self, name: &[u16], number: usize) -> Result<(), AllocError>
        requires { numbered name.now self.old ≡ None }
        ensures ok { OnOk result (self.new ≡ self.old ++ (name.now, number) ∷ []) }
        ensures err { OnErr result (self.new ≡ self.old) }
    {
        let name = Vec::from_slice(self.allocator(), name)?;
        self.entries.insert(name, number)?;
        Ok(())
    }
}
