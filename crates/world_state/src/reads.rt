//! What was read of a world.
ghost use Rattle.std.specs.Prelude.{◌≡◌, ℕ, ◌<◌, ◌≤◌, ◌∷◌, [], ◌++◌, IfOk, OnOk, OnErr, length, slice_get, slice_index_or, Some, false};
ghost use Rattle.world_state.specs.declared.reads.SlotRead.{SlotRead};
ghost use Rattle.world_state.specs.Reads.{is_read, with_read, IsInSlotOrder};

use std::alloc::{AllocError, Global};
use std::marker::Model;
use type_masks::Mask;

/// A slot and the mask that was read in it.
#[derive(Drop)]
pub struct SlotRead {
    pub slot: u32,
    pub mask: Mask,
}

impl SlotRead {
    /// An equal read.
    pub fn copy(&self) -> Result<SlotRead, AllocError>
        ensures { IfOk result (λ copy. copy ≡ self.now) }
    {
        Ok(SlotRead {
            slot: self.slot,
            mask: self.mask.copy()?,
        })
    }
}

/// Reads in ascending order of slots, each slot once.
#[derive(Drop)]
pub struct ReadList {
    items: Vec<SlotRead>,
}

impl Model for ReadList {
    ghost use Rattle.std.specs.Prelude.{List};
    ghost use Rattle.world_state.specs.declared.reads.SlotRead.{SlotRead};
    ghost use Rattle.world_state.specs.Reads.{coded_reads, IsInSlotOrder};

    ghost Value = { List SlotRead };

    ghost coded = { coded_reads };

    ghost view = { λ reads. reads.items.items };

    ghost invariant = { λ reads. IsInSlotOrder reads.items.items };
}

impl ReadList {
    /// No reads.
    pub fn new(alloc: Global) -> ReadList
        ensures { result ≡ [] }
    {
        ReadList {
            items: Vec::new(alloc),
        }
    }

    /// How many reads there are.
    pub fn len(&self) -> u64
        ensures { result ≡ length self.now }
    {
        self.items.len() as u64
    }

    /// The read at a place.
    pub fn get(&self, i: u64) -> &SlotRead
        requires { i < length self.now }
        ensures { slice_get self.now i ≡ Some result.now }
    {
        &self.items[i as usize]
    }

    /// Whether the slot was read.
    pub fn has(&self, slot: u32) -> bool
        ensures { result ≡ is_read self.now slot }
    {
        let reads = self.items.as_slice();
        let place = place_of(reads, slot);
        place < reads.len() && reads[place].slot == slot
    }

    /// Puts a read of a slot that was not read in its place. An `Err` changes nothing.
    pub fn push(&mut self, read: SlotRead) -> Result<(), AllocError>
        requires { is_read self.old read.slot ≡ false }
        ensures ok { OnOk result (self.new ≡ with_read self.old read) }
        ensures err { OnErr result (self.new ≡ self.old) }
    {
        let place = place_of(self.items.as_slice(), read.slot);
        self.items.insert(place, read)?;
        Ok(())
    }

    /// An equal list.
    pub fn copy(&self) -> Result<ReadList, AllocError>
        ensures { IfOk result (λ copy. copy ≡ self.now) }
    {
        let alloc = *self.items.allocator();
        Ok(ReadList {
            items: copied(alloc, self.items.as_slice())?,
        })
    }

    /// The reads in order.
    pub fn as_slice(&self) -> &[SlotRead]
        ensures reads { result.now ≡ self.now }
        ensures order { IsInSlotOrder self.now }
    {
        self.items.as_slice()
    }
}

// The place of the first read that is not of a lower slot.
fn place_of(reads: &[SlotRead], slot: u32) -> usize
    requires { IsInSlotOrder reads.now }
    ensures bound { result ≤ length reads.now }
    ensures below { (k : ℕ) (d : SlotRead) → k < result → (slice_index_or reads.now k d).slot < slot }
    ensures above { (k : ℕ) (d : SlotRead) → result ≤ k → k < length reads.now → slot ≤ (slice_index_or reads.now k d).slot }
{
    reads.partition_point(|read| read.slot < slot)
}

fn copied(alloc: Global, reads: &[SlotRead]) -> Result<Vec<SlotRead>, AllocError>
    ensures { IfOk result (λ copy. copy.items ≡ reads.now) }
{
    let mut all = Vec::new(alloc);
    for read in reads {
        all.push(read.copy()?)?;
    }
    Ok(all)
}
