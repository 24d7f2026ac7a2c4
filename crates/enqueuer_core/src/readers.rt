//! Hints of who has read a slot.
ghost use Rattle.std.specs.Prelude.{◌≡◌, ℕ, true, [], IfOk, OnOk};
ghost use Rattle.index_links.specs.Lists.{is_in};

use std::alloc::{AllocError, Global};
use std::marker::Model;

// How many entries a list may have that was never searched for members that stand in it twice.
const FEW: usize = 8;

/// Members that may have read a slot, in no order: all that settled on having read it, and some that no longer do. A
/// member may stand in a list more than once.
///
/// A list is begun anew when its slot is raised. Until then, each time that it has grown to twice what was last left of
/// it and `FEW` more, only one entry of each member is left. So it never has more entries than that, by the members that
/// settled on having read its slot since it was begun.
#[derive(Drop)]
pub struct Readers {
    members: Vec<u32>,
    limit: usize,
}

impl Model for Readers {
    ghost use Rattle.std.specs.Prelude.{List, ℕ};

    ghost Value = { List ℕ };

    ghost view = { λ readers. readers.members.items };
}

impl Readers {
    /// No members.
    pub fn new(alloc: Global) -> Readers
        ensures { result ≡ [] }
    {
        Readers {
            members: Vec::new(alloc),
            limit: FEW,
        }
    }

    /// The members in the order in which they happen to stand.
    pub fn as_slice(&self) -> &[u32]
        ensures { result.now ≡ self.now }
    {
        self.members.as_slice()
    }

    /// Adds a member. Whoever stood in the list stays, also after an `Err`.
    pub fn add(&mut self, member: u32) -> Result<(), AllocError>
        ensures kept { (n : ℕ) → is_in n self.old ≡ true → is_in n self.new ≡ true }
        ensures ok { OnOk result (is_in member self.new ≡ true) }
    {
        self.make_room();
        self.members.push(member)?;
        Ok(())
    }

    // Leaves one entry of each member, where the list has reached its limit.
    fn make_room(&mut self)
        ensures { (n : ℕ) → is_in n self.old ≡ true → is_in n self.new ≡ true }
    {
        if self.members.len() >= self.limit {
            each_once(&mut self.members);
            self.limit = self.members.len().saturating_mul(2).saturating_add(FEW);
        }
    }
}

// Each number of the list once.
fn each_once(members: &mut Vec<u32>)
    ensures { (n : ℕ) → is_in n members.old.items ≡ true → is_in n members.new.items ≡ true }
{
    members.sort_unstable();
    members.dedup();
}
