//! Worlds of facts.
ghost use Rattle.std.specs.Prelude.{◌≡◌, ◌/◌, ◌<◌, IfOk, OnOk, OnErr};
ghost use Rattle.std.specs.List.{AllByRecursion, list_all};
ghost use Rattle.world_state.specs.declared.fact.Fact.TheVariants.{In, Live};
ghost use Rattle.world_state.specs.Facts.{InShape};
ghost use Rattle.world_state.specs.Worlds.{has_fact, mask_at, with_fact, with_facts, absent_of, absent_along, IsWorld, empty_of};

use crate::fact::{Fact, FactList};
use crate::masks::Masks;
use crate::snapshot::Snapshot;
use std::alloc::{AllocError, Global};
use std::marker::Model;
use type_masks::{Mask, Shape};

// How many members one mask tells of.
const BLOCK: u32 = 64;

/// A set of facts that grows: the masks of the shared slots, and the live members.
#[derive(Drop)]
pub struct World {
    shape: Shape,
    masks: Masks,
    // The live ones of each block of members.
    live: Masks,
}

impl Model for World {
    ghost use Rattle.world_state.specs.Worlds.{Facts, coded_Facts};
    ghost use Rattle.world_state.specs.Kept.{facts_in, IsKept};

    ghost Value = { Facts };

    ghost coded = { coded_Facts };

    ghost view = { λ world. facts_in world.shape world.masks world.live };

    ghost invariant = { λ world. IsKept world.shape world.masks world.live };
}

impl World {
    /// The world in which nothing holds.
    pub fn new(alloc: Global, shape: Shape) -> Result<World, AllocError>
        ensures { IfOk result (λ world. world ≡ empty_of shape) }
    {
        Ok(World {
            shape,
            masks: Masks::new(alloc, shape.slots, shape.kinds)?,
            live: Masks::new(alloc, shape.members.div_ceil(BLOCK), shape.members)?,
        })
    }

    /// How many members, slots and kinds the world is made for.
    pub fn shape(&self) -> Shape
        ensures shape { result ≡ self.now.shape }
        ensures world { IsWorld self.now }
    {
        self.shape
    }

    /// The kinds that are in a slot.
    pub fn mask(&self, slot: u32) -> &Mask
        requires { slot < self.now.shape.slots }
        ensures { result.now ≡ mask_at self.now slot }
    {
        self.masks.mask(slot as usize)
    }

    /// Whether a member is live.
    pub fn is_live(&self, member: u32) -> bool
        ensures { result ≡ has_fact self.now (Live member) }
    {
        member < self.shape.members && self.live.mask(block_of(member)).has(member)
    }

    /// Adds all facts, and answers those that were absent before the call, each once, in order of first place.
    /// An `Err` changes nothing.
    pub fn add_facts(&mut self, facts: &FactList) -> Result<FactList, AllocError>
        requires { AllByRecursion (InShape self.old.shape) facts.now }
        ensures added { IfOk result (λ added. added ≡ absent_of self.old facts.now) }
        ensures ok { OnOk result (self.new ≡ with_facts self.old facts.now) }
        ensures err { OnErr result (self.new ≡ self.old) }
    {
        if self.has_all(facts.as_slice()) {
            return Ok(FactList::new(self.masks.alloc()));
        }
        let mut grown = self.share()?;
        let added = grow(&mut grown, facts.as_slice())?;
        *self = grown;
        Ok(added)
    }

    /// The world as it is now.
    pub fn snapshot(&self) -> Result<Snapshot, AllocError>
        ensures { IfOk result (λ snapshot. snapshot ≡ self.now) }
    {
        Ok(Snapshot::of(self.share()?))
    }

    fn has(&self, fact: Fact) -> bool
        requires { InShape self.now.shape fact }
        ensures { result ≡ has_fact self.now fact }
    {
        match fact {
            Fact::In { slot, kind } => self.mask(slot).has(kind),
            Fact::Live { member } => self.is_live(member),
        }
    }

    fn has_all(&self, facts: &[Fact]) -> bool
        requires { AllByRecursion (InShape self.now.shape) facts.now }
        ensures { result ≡ list_all (has_fact self.now) facts.now }
    {
        for fact in facts {
            if !self.has(*fact) {
                return false;
            }
        }
        true
    }

    // An `Err` changes nothing.
    fn add(&mut self, fact: Fact) -> Result<(), AllocError>
        requires { InShape self.old.shape fact }
        ensures ok { OnOk result (self.new ≡ with_fact self.old fact) }
        ensures err { OnErr result (self.new ≡ self.old) }
    {
        match fact {
            Fact::In { slot, kind } => self.add_kind(slot, kind),
            Fact::Live { member } => self.add_member(member),
        }
    }

    // An `Err` changes nothing.
    fn add_kind(&mut self, slot: u32, kind: u32) -> Result<(), AllocError>
        requires { InShape self.old.shape (In slot kind) }
        ensures ok { OnOk result (self.new ≡ with_fact self.old (In slot kind)) }
        ensures err { OnErr result (self.new ≡ self.old) }
    {
        self.masks.add(slot as usize, kind)?;
        Ok(())
    }

    // An `Err` changes nothing.
    fn add_member(&mut self, member: u32) -> Result<(), AllocError>
        requires { member < self.old.shape.members }
        ensures ok { OnOk result (self.new ≡ with_fact self.old (Live member)) }
        ensures err { OnErr result (self.new ≡ self.old) }
    {
        self.live.add(block_of(member), member)?;
        Ok(())
    }

    // An equal world, which shares all pages.
    fn share(&self) -> Result<World, AllocError>
        ensures { IfOk result (λ world. world ≡ self.now) }
    {
        Ok(World {
            shape: self.shape,
            masks: self.masks.share()?,
            live: self.live.share()?,
        })
    }
}

// The block that has the member.
fn block_of(member: u32) -> usize
    ensures { result ≡ member / 64 }
{
    (member / BLOCK) as usize
}

// Adds all facts, and answers those that were new. After an `Err` the world may have some of them.
fn grow(world: &mut World, facts: &[Fact]) -> Result<FactList, AllocError>
    requires { AllByRecursion (InShape world.old.shape) facts.now }
    ensures added { IfOk result (λ added. added ≡ absent_along world.old facts.now) }
    ensures ok { OnOk result (world.new ≡ with_facts world.old facts.now) }
{
    let mut added = FactList::new(world.masks.alloc());
    for fact in facts {
        if !world.has(*fact) {
            world.add(*fact)?;
            added.push(*fact)?;
        }
    }
    Ok(added)
}
