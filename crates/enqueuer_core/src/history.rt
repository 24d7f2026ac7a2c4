//! What was joined.
ghost use Rattle.std.specs.Prelude.{◌≡◌, ◌<◌, ◌∷◌, [], ◌++◌, length, vec_len, vec_capacity, slice_get, Some};

use world_state::{FactList, Impact};

/// A join that was not dropped: whose it was, what it brought, whether its reads were all up to date, and the facts
/// that were new.
#[derive(Drop)]
pub struct Entry {
    pub worker: u32,
    pub impact: Impact,
    pub whole: bool,
    pub added: FactList,
}

/// Joins in order.
#[derive(Drop)]
pub struct History {
    pub(crate) entries: Vec<Entry>,
}

impl History {
    /// How many joins there were.
    pub fn len(&self) -> u64
        ensures { result ≡ length self.now.entries.items }
    {
        self.entries.len() as u64
    }

    /// The join at a place.
    pub fn get(&self, i: u64) -> &Entry
        requires { i < length self.now.entries.items }
        ensures { slice_get self.now.entries.items i ≡ Some result.now }
    {
        &self.entries[i as usize]
    }

    /// The joins in order.
    pub fn as_slice(&self) -> &[Entry]
        ensures { result.now ≡ self.now.entries.items }
    {
        self.entries.as_slice()
    }
}

// Puts an entry behind all others, where there is room for it.
pub(crate) fn record(entries: &mut Vec<Entry>, entry: Entry)
    requires { vec_len entries.old < vec_capacity entries.old }
    ensures { entries.new.items ≡ entries.old.items ++ entry ∷ [] }
{
    let _ = entries.push(entry);
}
