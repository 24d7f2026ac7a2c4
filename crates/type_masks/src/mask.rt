//! Sets of kinds below a bound.
ghost use Rattle.std.specs.Prelude.{◌≡◌, ◌≢◌, ℕ, ◌<◌, IfOk, OnOk, OnErr, MatchOption, not};
ghost use Rattle.std.specs.List.{list_all};
ghost use Rattle.std.specs.FinSet as set;
ghost use Rattle.type_masks.specs.Masks.{Kinds, has, with_kind, with_kinds, only_kind, is_within, is_same, IsBounded, IsAscending};

use crate::mask_iter::MaskIter;
use crate::merge::merged;
use smallvec::SmallVec;
use std::alloc::{AllocError, Global};
use std::marker::Model;

/// A set of kinds below a bound.
#[derive(Drop)]
pub struct Mask {
    bound: u32,
    kinds: SmallVec<u32, 8>,
}

impl Model for Mask {
    ghost use Rattle.std.specs.FinSet as set;
    ghost use Rattle.type_masks.specs.Masks.{Kinds, coded_Kinds, IsBounded, IsAscending};

    ghost Value = { Kinds };

    ghost coded = { coded_Kinds };

    ghost view = { λ mask. record { bound = mask.bound; set = set.from_list mask.kinds.items } };

    ghost invariant = { λ mask. IsBounded (record { bound = mask.bound; set = set.from_list mask.kinds.items }) × IsAscending mask.kinds.items };
}

impl Mask {
    /// The empty set of kinds below the bound.
    pub fn new(alloc: Global, bound: u32) -> Mask
        ensures { result ≡ record { bound = bound; set = set.empty } }
    {
        Mask {
            bound,
            kinds: SmallVec::new(alloc),
        }
    }

    /// The number that all kinds lie below.
    pub fn bound(&self) -> u32
        ensures bound { result ≡ self.now.bound }
        ensures kinds { IsBounded self.now }
    {
        self.bound
    }

    /// Whether the set has the kind.
    pub fn has(&self, kind: u32) -> bool
        ensures { result ≡ has self.now kind }
    {
        self.kinds.as_slice().binary_search(&kind).is_ok()
    }

    /// Whether each kind of this set is in the other.
    pub fn is_sub(&self, other: &Mask) -> bool
        ensures { result ≡ is_within self.now other.now }
    {
        all_in(self.kinds.as_slice(), other)
    }

    /// Whether both have one bound and the same kinds.
    pub fn is_same(&self, other: &Mask) -> bool
        ensures { result ≡ is_same self.now other.now }
    {
        self.bound == other.bound && self.is_sub(other) && other.is_sub(self)
    }

    /// The one kind of the set, where it has just one.
    pub fn only(&self) -> Option<u32>
        ensures { MatchOption result ((kind : ℕ) → self.now.set ≢ only_kind kind) (λ kind. self.now.set ≡ only_kind kind) }
    {
        let kinds = self.kinds.as_slice();
        if kinds.len() == 1 {
            Some(kinds[0])
        } else {
            None
        }
    }

    /// The kinds of the set, in ascending order.
    pub fn iter(&self) -> MaskIter<'_>
        ensures ascending { IsAscending result.rest.now }
        ensures all { set.from_list result.rest.now ≡ self.now.set }
    {
        MaskIter {
            rest: self.kinds.as_slice(),
        }
    }

    /// Adds a kind, and answers whether it was new. An `Err` changes nothing.
    pub fn add(&mut self, kind: u32) -> Result<bool, AllocError>
        requires { kind < self.old.bound }
        ensures fresh { IfOk result (λ fresh. fresh ≡ not (has self.old kind)) }
        ensures ok { OnOk result (self.new ≡ with_kind self.old kind) }
        ensures err { OnErr result (self.new ≡ self.old) }
    {
        match self.kinds.as_slice().binary_search(&kind) {
            Ok(_) => Ok(false),
            Err(place) => {
                self.kinds.insert(place, kind)?;
                Ok(true)
            }
        }
    }

    /// Adds each kind of this set to the other, and answers whether that grew. An `Err` changes nothing.
    pub fn union_into(&self, into: &mut Mask) -> Result<bool, AllocError>
        requires { self.now.bound ≡ into.old.bound }
        ensures grew { IfOk result (λ grew. grew ≡ not (is_within self.now into.old)) }
        ensures ok { OnOk result (into.new ≡ with_kinds into.old self.now) }
        ensures err { OnErr result (into.new ≡ into.old) }
    {
        if self.is_sub(into) {
            return Ok(false);
        }
        let alloc = *into.kinds.allocator();
        into.kinds = merged(alloc, self.kinds.as_slice(), into.kinds.as_slice())?;
        Ok(true)
    }

    /// An equal set.
    pub fn copy(&self) -> Result<Mask, AllocError>
        ensures { IfOk result (λ copy. copy ≡ self.now) }
    {
        let alloc = *self.kinds.allocator();
        Ok(Mask {
            bound: self.bound,
            kinds: SmallVec::from_slice(alloc, self.kinds.as_slice())?,
        })
    }
}

// Whether each of these kinds is in the set.
fn all_in(kinds: &[u32], set: &Mask) -> bool
    ensures { result ≡ list_all (has set.now) kinds.now }
{
    kinds.iter().all(|kind| set.has(*kind))
}
