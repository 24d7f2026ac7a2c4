//! Worlds as they were.
ghost use Rattle.std.specs.Prelude.{◌≡◌, ◌<◌};
ghost use Rattle.world_state.specs.declared.fact.Fact.TheVariants.{Live};
ghost use Rattle.world_state.specs.Worlds.{has_fact, mask_at, IsWorld};

use crate::world::World;
use std::marker::Model;
use type_masks::{Mask, Shape};

/// A world as it was. It never changes.
#[derive(Drop)]
pub struct Snapshot {
    world: World,
}

impl Model for Snapshot {
    ghost use Rattle.world_state.specs.Worlds.{Facts, coded_Facts};

    ghost Value = { Facts };

    ghost coded = { coded_Facts };

    ghost view = { λ snapshot. snapshot.world };
}

impl Snapshot {
    pub(crate) fn of(world: World) -> Snapshot
        ensures { result ≡ world }
    {
        Snapshot { world }
    }

    /// How many members, slots and kinds the world is made for.
    pub fn shape(&self) -> Shape
        ensures shape { result ≡ self.now.shape }
        ensures world { IsWorld self.now }
    {
        self.world.shape()
    }

    /// The kinds that were in a slot.
    pub fn mask(&self, slot: u32) -> &Mask
        requires { slot < self.now.shape.slots }
        ensures { result.now ≡ mask_at self.now slot }
    {
        self.world.mask(slot)
    }

    /// Whether a member was live.
    pub fn is_live(&self, member: u32) -> bool
        ensures { result ≡ has_fact self.now (Live member) }
    {
        self.world.is_live(member)
    }
}
