//! The names by which members of objects are looked for in a program, by their numbers.
ghost use Rattle.std.specs.Prelude.{◌≡◌, ◌↔◌, [], length, slice_get, IsTrue};
ghost use Rattle.std.specs.Option.{option_copied};
ghost use Rattle.selectors.specs.Selectors.{number_of};

use crate::selector::Selector;
use crate::tables::Tables;
use std::marker::Model;

/// The names by which members of objects are looked for in a program, by their numbers: each once, as it is first seen.
#[derive(Drop)]
pub struct Selectors {
    tables: Tables,
}

impl Model for Selectors {
    ghost use Rattle.std.specs.Prelude.{List};
    ghost use Rattle.selectors.specs.declared.selector.Selector.{Selector};
    ghost use Rattle.selectors.specs.Tables.{AreTables};

    ghost Value = { List Selector };

    ghost view = { λ selectors. selectors.tables.listed };

    ghost invariant = { λ selectors. AreTables selectors.tables };
}

impl Selectors {
    ghost use Rattle.selectors.specs.Tables.{AreTables};

    /// Those of these tables.
    pub fn new(tables: Tables) -> Selectors
        requires { AreTables tables }
        ensures { result ≡ tables.listed }
    {
        Selectors { tables }
    }

    /// How many there are.
    pub fn len(&self) -> usize
        ensures { result ≡ length self.now }
    {
        self.tables.listed.len()
    }

    /// Whether there is none.
    pub fn is_empty(&self) -> bool
        ensures { IsTrue result ↔ (self.now ≡ []) }
    {
        self.tables.listed.is_empty()
    }

    /// The one of this number.
    pub fn get(&self, number: u32) -> Option<&Selector>
        ensures { option_copied result ≡ slice_get self.now number }
    {
        self.tables.listed.get(number as usize)
    }

    /// The number of a name as a file sees it, with `=` behind the name of a setter. None exactly where no site of the
    /// program declares or uses it. Takes no memory, and finds the name by hashing.
    #[tactic(auto, using(crate::proofs::Filed::number_by_is))]
    pub fn number(&self, file: u32, name: &[u16]) -> Option<u32>
        ensures { result ≡ number_of file name.now self.now }
    {
        self.tables.number(file, name)
    }
}
