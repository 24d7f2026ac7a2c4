//! What waits, and the numbers that tell which of it comes next.

ghost use Rattle.std.specs.Prelude.{◌≡◌, ◌++◌, ◌∷◌, [], length, slice_get, remove, OnOk};
ghost use Rattle.store_lists.specs.Order.{first_waiting, others_waiting, next_number, further_numbers};

use std::alloc::{AllocError, Global};
use std::collections::VecDeque;
use std::marker::Model;

/// Items that wait, in the order in which they came; seen as the list of them.
#[derive(Drop)]
pub struct Waiting<T> {
    items: VecDeque<T>,
}

impl<T> Model for Waiting<T> {
    ghost use Rattle.std.specs.Prelude.{List};
    ghost use Rattle.std.specs.Coded.{coded_list};

    ghost Value = { List T };

    ghost coded = { coded_list T.code };

    ghost view = { λ waiting. waiting.items.items };
}

impl<T> Waiting<T> {
    /// Nothing waits.
    pub fn new(alloc: Global) -> Waiting<T>
        ensures { result ≡ [] }
    {
        Waiting {
            items: VecDeque::new(alloc),
        }
    }

    /// How many items wait.
    pub fn len(&self) -> usize
        ensures { result ≡ length self.now }
    {
        self.items.len()
    }

    /// Takes the first item, where one waits.
    pub fn take_first(&mut self) -> Option<T>
        ensures item { result ≡ first_waiting self.old }
        ensures rest { self.new ≡ others_waiting self.old }
    {
        self.items.pop_front()
    }

    /// Takes the item at a place, where there is one.
    pub fn take(&mut self, at: usize) -> Option<T>
        ensures item { result ≡ slice_get self.old at }
        ensures rest { self.new ≡ remove self.old at }
    {
        self.items.remove(at)
    }
}

impl<T: Drop> Waiting<T> {
    /// One item more waits, behind all others.
    pub fn push(&mut self, item: T) -> Result<(), AllocError>
        ensures { OnOk result (self.new ≡ self.old ++ item ∷ []) }
    {
        self.items.push_back(item)?;
        Ok(())
    }
}

/// Numbers that are still to be taken; seen as the list of them.
#[derive(Drop)]
pub struct Order<'a> {
    numbers: &'a [u32],
}

impl<'a> Model for Order<'a> {
    ghost use Rattle.std.specs.Prelude.{List, ℕ};

    ghost Value = { List ℕ };

    ghost view = { λ order. order.numbers.now };
}

impl<'a> Order<'a> {
    /// These numbers.
    pub fn new(numbers: &'a [u32]) -> Order<'a>
        ensures { result ≡ numbers.now }
    {
        Order { numbers }
    }

    /// Takes the next number, which is 0 once they have ended.
    pub fn take(&mut self) -> u32
        ensures number { result ≡ next_number self.old }
        ensures rest { self.new ≡ further_numbers self.old }
    {
        match self.numbers.split_first() {
            Some((first, rest)) => {
                self.numbers = rest;
                *first
            }
            None => 0,
        }
    }
}
