//! Facts, and lists of them.
ghost use Rattle.std.specs.Prelude.{◌≡◌, ◌<◌, ◌∷◌, [], ◌++◌, IfOk, OnOk, OnErr, length, slice_get, Some};

use std::alloc::{AllocError, Global};
use std::marker::Model;

/// That a kind is in a shared slot, or that a member is live.
#[derive(Clone, Copy, Debug, PartialEq, Eq)]
pub enum Fact {
    In { slot: u32, kind: u32 },
    Live { member: u32 },
}

/// Facts in order.
#[derive(Drop)]
pub struct FactList {
    items: Vec<Fact>,
}

impl Model for FactList {
    ghost use Rattle.std.specs.Prelude.{List};
    ghost use Rattle.world_state.specs.declared.fact.Fact.{Fact};

    ghost Value = { List Fact };

    ghost view = { λ facts. facts.items.items };
}

impl FactList {
    /// No facts.
    pub fn new(alloc: Global) -> FactList
        ensures { result ≡ [] }
    {
        FactList {
            items: Vec::new(alloc),
        }
    }

    /// How many facts there are.
    pub fn len(&self) -> u64
        ensures { result ≡ length self.now }
    {
        self.items.len() as u64
    }

    /// The fact at a place.
    pub fn get(&self, i: u64) -> &Fact
        requires { i < length self.now }
        ensures { slice_get self.now i ≡ Some result.now }
    {
        &self.items[i as usize]
    }

    /// Puts a fact behind all others. An `Err` changes nothing.
    pub fn push(&mut self, fact: Fact) -> Result<(), AllocError>
        ensures ok { OnOk result (self.new ≡ self.old ++ fact ∷ []) }
        ensures err { OnErr result (self.new ≡ self.old) }
    {
        self.items.push(fact)?;
        Ok(())
    }

    /// An equal list.
    pub fn copy(&self) -> Result<FactList, AllocError>
        ensures { IfOk result (λ copy. copy ≡ self.now) }
    {
        let alloc = *self.items.allocator();
        Ok(FactList {
            items: Vec::from_slice(alloc, self.items.as_slice())?,
        })
    }

    /// The facts in order.
    pub fn as_slice(&self) -> &[Fact]
        ensures { result.now ≡ self.now }
    {
        self.items.as_slice()
    }
}
