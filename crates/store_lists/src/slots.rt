//! A list whose items are changed in place.

ghost use Rattle.std.specs.Prelude.{◌≡◌, [], ◌∷◌, ◌++◌, ◌<◌, length, slice_get, slice_set, OnOk, OnErr, Some};
ghost use Rattle.std.specs.Option.{option_copied, is_some};
ghost use Rattle.store_lists.specs.Lists.{item_at, set_item, last_item, all_but_last};

use std::alloc::{AllocError, Global};
use std::marker::Model;
use std::mem;

/// Items, one after another; seen as the list of them.
#[derive(Drop)]
pub struct Slots<T> {
    pub(crate) items: Vec<T>,
}

impl<T> Model for Slots<T> {
    ghost use Rattle.std.specs.Prelude.{List};
    ghost use Rattle.std.specs.Coded.{coded_list};

    ghost Value = { List T };

    ghost coded = { coded_list T.code };

    ghost view = { λ slots. slots.items.items };
}

impl<T> Slots<T> {
    /// No item.
    pub fn new(alloc: Global) -> Slots<T>
        ensures { result ≡ [] }
    {
        Slots {
            items: Vec::new(alloc),
        }
    }

    /// How many items there are.
    pub fn len(&self) -> usize
        ensures { result ≡ length self.now }
    {
        self.items.len()
    }

    /// The item at a place, where there is one.
    pub fn get(&self, at: usize) -> Option<&T>
        ensures { option_copied result ≡ slice_get self.now at }
    {
        self.items.get(at)
    }

    /// The items as a slice.
    pub fn as_slice(&self) -> &[T]
        ensures { result.now ≡ self.now }
    {
        self.items.as_slice()
    }

    /// Takes the last item off, where there is one.
    #[tactic(auto, using(crate::proofs::Lists::last_taken, crate::proofs::Lists::front_left))]
    pub fn pop(&mut self) -> Option<T>
        ensures item { result ≡ last_item self.old }
        ensures rest { self.new ≡ all_but_last self.old }
    {
        self.items.pop()
    }

    /// Puts an item in the place of another, which it gives back.
    pub fn replace(&mut self, at: usize, item: T) -> T
        requires { at < length self.old }
        ensures old { slice_get self.old at ≡ Some result }
        ensures new { self.new ≡ slice_set self.old at item }
    {
        mem::replace(&mut self.items[at], item)
    }
}

impl<T: Drop> Slots<T> {
    /// Puts an item at an index, and tells whether the index is in range; where it is not, nothing changes.
    pub fn put(&mut self, index: i64, item: T) -> bool
        ensures result { result ≡ is_some (item_at self.old index) }
        ensures list { self.new ≡ set_item self.old index item }
    {
        match usize::try_from(index) {
            Ok(at) => self.put_at(at, item),
            Err(_) => false,
        }
    }

    /// Puts an item at a place, and tells whether there is one; where there is none, nothing changes.
    pub fn put_at(&mut self, at: usize, item: T) -> bool
        ensures result { result ≡ is_some (slice_get self.old at) }
        ensures list { self.new ≡ slice_set self.old at item }
    {
        match self.items.get_mut(at) {
            Some(place) => {
                *place = item;
                true
            }
            None => false,
        }
    }

    /// Adds an item behind all others. Want of memory leaves the list as it was.
    pub fn push(&mut self, item: T) -> Result<(), AllocError>
        ensures ok { OnOk result (self.new ≡ self.old ++ item ∷ []) }
        ensures err { OnErr result (self.new ≡ self.old) }
    {
        self.items.push(item)?;
        Ok(())
    }
}
