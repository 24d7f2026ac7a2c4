//! Names, found by hashing.
ghost use Rattle.std.specs.Prelude.{◌≡◌, [], length, is_some, OnOk};
ghost use Rattle.library_scopes.specs.Names.{meaning, with_name, is_among, with_one};

use crate::named::Named;
use indexmap::{IndexMap, IndexSet};
use std::alloc::{AllocError, Global};
use std::marker::Model;

/// Names and what each stands for, in the order in which they were put in; of one name the first meaning stays.
#[derive(Drop)]
pub struct Names {
    entries: IndexMap<Vec<u16>, Named>,
    alloc: Global,
}

impl Model for Names {
    ghost use Rattle.std.specs.Prelude.{List, ℕ, map};
    ghost use Rattle.std.specs.Coded.{coded_list, coded×, coded_ℕ};
    ghost use Rattle.library_scopes.specs.declared.named.Named.{Named};

    ghost Value = { List (List ℕ × Named) };

    ghost view = { λ names. map (λ e. (e.0.items, e.1)) names.entries.entries };
}

impl Names {
    /// No name.
    pub fn new(alloc: Global) -> Names
        ensures { result ≡ [] }
    {
        Names {
            entries: IndexMap::new(alloc),
            alloc,
        }
    }

    /// How many names there are.
    pub fn len(&self) -> usize
        ensures { result ≡ length self.now }
    {
        self.entries.len()
    }

    /// What this name stands for.
    pub fn find(&self, name: &[u16]) -> Option<Named>
        ensures { result ≡ meaning name.now self.now }
    {
        self.entries.get(name).copied()
    }

    /// Whether this name is there.
    pub fn has(&self, name: &[u16]) -> bool
        ensures { result ≡ is_some (meaning name.now self.now) }
    {
        self.find(name).is_some()
    }

    /// Puts a name in, unless it is there.
    pub fn put(&mut self, name: &[u16], named: Named) -> Result<(), AllocError>
        ensures { OnOk result (self.new ≡ with_name name.now named self.old) }
    {
        if !self.has(name) {
            let name = Vec::from_slice(self.alloc, name)?;
            self.entries.insert(name, named)?;
        }
        Ok(())
    }
}

/// Names in the order in which they were put in, each once.
#[derive(Drop)]
pub struct NameSet {
    names: IndexSet<Vec<u16>>,
    alloc: Global,
}

impl Model for NameSet {
    ghost use Rattle.std.specs.Prelude.{List, ℕ, map};
    ghost use Rattle.std.specs.Coded.{coded_list, coded_ℕ};

    ghost Value = { List (List ℕ) };

    ghost coded = { coded_list (coded_list coded_ℕ) };

    ghost view = { λ set. map (λ name. name.items) set.names.keys };
}

impl NameSet {
    /// No name.
    pub fn new(alloc: Global) -> NameSet
        ensures { result ≡ [] }
    {
        NameSet {
            names: IndexSet::new(alloc),
            alloc,
        }
    }

    /// Whether this name is there.
    pub fn has(&self, name: &[u16]) -> bool
        ensures { result ≡ is_among name.now self.now }
    {
        self.names.contains(name)
    }

    /// Puts a name in, unless it is there.
    pub fn put(&mut self, name: &[u16]) -> Result<(), AllocError>
        ensures { OnOk result (self.new ≡ with_one name.now self.old) }
    {
        if !self.has(name) {
            let name = Vec::from_slice(self.alloc, name)?;
            self.names.insert(name)?;
        }
        Ok(())
    }
}
