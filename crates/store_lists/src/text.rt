//! Texts of a run, which are shared and not copied whole.

ghost use Rattle.std.specs.Prelude.{◌≡◌, ◌<◌, ◌^◌, ◌++◌, length, slice_get, fold, IfOk};
ghost use Rattle.std.specs.List.{flat_map};
ghost use Rattle.std.specs.Ordering.{nat_cmp};
ghost use Rattle.std.specs.Fmt.{signed_decimal};
ghost use Rattle.std.specs.Hash as fed;
ghost use Rattle.std.specs.Cmp.Lexicographic.{pointwise, slice_cmp, nat_list_eq_equiv};
ghost use Rattle.std.specs.Cmp.{partial_equiv_from_equiv};
ghost use Rattle.std.specs.Cmp.Rules.{hashing};
ghost use Rattle.std.proofs.Common.{rules};
ghost use Rattle.store_lists.specs.Lists.{item_at};
ghost use Rattle.store_lists.specs.Parts.{flat};
ghost use Rattle.store_lists.specs.Text.{part, same_text};

use crate::parts::{Part, kept, push_all, push_range, unit_in, with_part};
use crate::share::Share;
use bumpalo::Bump;
use bumpalo::collections::into_bump_slice;
use code_units::Text;
use std::alloc::{AllocError, Global};
use std::cmp::Ordering;
use std::hash::{Hash, Hasher};
use std::marker::Model;

/// A text, seen as the list of its UTF-16 units. It lies in the program's text or in the arena of the run, so that it is
/// shared without a copy. Its units lie in parts, each less than half as long as the one before, so that a text that grows
/// by small pieces is not copied whole with each of them.
#[derive(Drop)]
pub struct SharedText<'a> {
    front: &'a [Part<'a>],
    back: &'a [u16],
    count: usize,
}

impl<'a> Model for SharedText<'a> {
    ghost use Rattle.std.specs.Prelude.{◌≡◌, ◌<◌, ◌^◌, ◌++◌, List, ℕ, length};
    ghost use Rattle.store_lists.specs.Parts.{flat};

    ghost Value = { List ℕ };

    ghost view = { λ text. flat text.front.now ++ text.back.now };

    ghost invariant = { λ text. (text.count ≡ length (flat text.front.now ++ text.back.now)) × (text.count < 2 ^ 63) };
}

impl<'a> SharedText<'a> {
    /// The text of these units, without a copy.
    pub fn new(units: &'a [u16]) -> SharedText<'a>
        ensures { result ≡ units.now }
    {
        SharedText {
            front: &[],
            back: units,
            count: units.len(),
        }
    }

    /// A copy of these units, in the arena.
    pub fn copied(arena: &'a Bump, units: &[u16]) -> Result<SharedText<'a>, AllocError>
        ensures { IfOk result (λ text. text ≡ units.now) }
    {
        let units = arena.try_alloc_slice_copy(units)?;
        Ok(SharedText::new(units))
    }

    /// The decimal digits of a number, with `-` in front where it is below 0.
    pub fn decimal(arena: &'a Bump, number: i64) -> Result<SharedText<'a>, AllocError>
        ensures { IfOk result (λ text. text ≡ signed_decimal number) }
    {
        let mut buffer = itoa::Buffer::new();
        let mut units = Vec::new(arena);
        for byte in buffer.format(number).as_bytes() {
            units.push(u16::from(*byte))?;
        }
        Ok(SharedText::new(into_bump_slice(units)))
    }

    /// The units of this text, and behind them those of another.
    pub fn joined(
        &self,
        arena: &'a Bump,
        other: &SharedText<'a>,
    ) -> Result<SharedText<'a>, AllocError>
        ensures { IfOk result (λ text. text ≡ self.now ++ other.now) }
    {
        let count = self.count_with(other)?;
        if self.back.len() / 2 > other.count.saturating_add(32) {
            self.stacked(arena, other, count)
        } else {
            self.merged(arena, other, count)
        }
    }

    /// How many units both have, where one text may have so many.
    fn count_with(&self, other: &SharedText<'a>) -> Result<usize, AllocError>
        ensures count { IfOk result (λ count. count ≡ length (self.now ++ other.now)) }
        ensures bound { IfOk result (λ count. count < 2 ^ 63) }
    {
        match self.count.checked_add(other.count) {
            Some(count) if count <= isize::MAX as usize => Ok(count),
            _ => Err(AllocError),
        }
    }

    /// The other text as a part of its own.
    fn stacked(
        &self,
        arena: &'a Bump,
        other: &SharedText<'a>,
        count: usize,
    ) -> Result<SharedText<'a>, AllocError>
        requires count { count ≡ length (self.now ++ other.now) }
        requires bound { count < 2 ^ 63 }
        ensures { IfOk result (λ text. text ≡ self.now ++ other.now) }
    {
        let front = with_part(arena, self.front, self.back)?;
        let back = other.flattened(arena)?;
        Ok(SharedText { front, back, count })
    }

    /// The other text in one part with the last parts of this one.
    #[tactic(auto, using(crate::proofs::Units::merged))]
    fn merged(
        &self,
        arena: &'a Bump,
        other: &SharedText<'a>,
        count: usize,
    ) -> Result<SharedText<'a>, AllocError>
        requires count { count ≡ length (self.now ++ other.now) }
        requires bound { count < 2 ^ 63 }
        ensures { IfOk result (λ text. text ≡ self.now ++ other.now) }
    {
        let keep = kept(self.front, self.back.len().saturating_add(other.count));
        let (front, rest) = self.front.split_at(keep);
        let mut units = Vec::new(arena);
        push_all(&mut units, rest, self.back)?;
        push_all(&mut units, other.front, other.back)?;
        let back = into_bump_slice(units);
        Ok(SharedText { front, back, count })
    }

    /// The units in one part.
    fn flattened(&self, arena: &'a Bump) -> Result<&'a [u16], AllocError>
        ensures { IfOk result (λ units. units.now ≡ self.now) }
    {
        let mut units = Vec::new(arena);
        push_all(&mut units, self.front, self.back)?;
        Ok(into_bump_slice(units))
    }

    /// A copy that stands alone.
    pub fn to_text(&self, alloc: Global) -> Result<Text, AllocError>
        ensures { IfOk result (λ text. text ≡ self.now) }
    {
        let mut text = Text::new(alloc);
        for part in self.front {
            text.extend(part.units())?;
        }
        text.extend(self.back)?;
        Ok(text)
    }

    /// How many units there are.
    pub fn len(&self) -> u64
        ensures value { result ≡ length self.now }
        ensures bound { result < 2 ^ 63 }
    {
        self.count as u64
    }

    /// The unit at a place, where there is one.
    fn get(&self, at: u64) -> Option<u16>
        ensures { result ≡ slice_get self.now at }
    {
        unit_in(self.front, self.back, at as usize)
    }

    /// The unit at an index, where the index is in range.
    pub fn unit(&self, index: i64) -> Option<u16>
        ensures { result ≡ item_at self.now index }
    {
        let at = u64::try_from(index).ok()?;
        self.get(at)
    }

    /// The units from one place up to, and without, another, where 0 <= from <= to <= length.
    pub fn part(
        &self,
        arena: &'a Bump,
        from: i64,
        to: i64,
    ) -> Result<Option<SharedText<'a>>, AllocError>
        ensures { IfOk result (λ text. text ≡ part self.now from to) }
    {
        match (usize::try_from(from), usize::try_from(to)) {
            (Ok(from), Ok(to)) if from <= to && to <= self.count => {
                let mut units = Vec::new(arena);
                push_range(&mut units, self.front, self.back, from, to)?;
                Ok(Some(SharedText::new(into_bump_slice(units))))
            }
            _ => Ok(None),
        }
    }

    /// Which of two texts comes first, by their units.
    pub fn compare(&self, other: &SharedText<'a>) -> Ordering
        ensures { result ≡ slice_cmp nat_cmp self.now other.now }
    {
        if self.front.is_empty() && other.front.is_empty() {
            self.back.cmp(other.back)
        } else {
            self.compare_units(other)
        }
    }

    fn compare_units(&self, other: &SharedText<'a>) -> Ordering
        ensures { result ≡ slice_cmp nat_cmp self.now other.now }
    {
        for at in 0..self.len() {
            match self.get(at) {
                Some(a) => match other.get(at) {
                    Some(b) => {
                        if a != b {
                            return a.cmp(&b);
                        }
                    }
                    None => return Ordering::Greater,
                },
                None => return Ordering::Equal,
            }
        }
        self.len().cmp(&other.len())
    }

    fn has_units(&self, other: &SharedText<'a>) -> bool
        ensures { result ≡ same_text self.now other.now }
    {
        if self.len() != other.len() {
            return false;
        }
        for at in 0..self.len() {
            match self.get(at) {
                Some(a) => match other.get(at) {
                    Some(b) => {
                        if a != b {
                            return false;
                        }
                    }
                    None => return false,
                },
                None => return false,
            }
        }
        true
    }
}

impl<'a> Share for SharedText<'a> {
    fn share(&self) -> SharedText<'a> {
        SharedText {
            front: self.front,
            back: self.back,
            count: self.count,
        }
    }
}

impl<'a> PartialEq for SharedText<'a> {
    ghost eq = { same_text };

    ghost laws = { partial_equiv_from_equiv nat_list_eq_equiv };

    fn eq(&self, other: &SharedText<'a>) -> bool {
        if self.front.is_empty() && other.front.is_empty() {
            self.back == other.back
        } else {
            self.has_units(other)
        }
    }
}

impl<'a> Eq for SharedText<'a> {
    ghost laws = { nat_list_eq_equiv };
}

impl<'a> Hash for SharedText<'a> {
    ghost hash_input = { λ text. fed.slice fed.u16 text };

    ghost respects_eq = { Prim.search (hashing, rules) };

    fn hash<H: Hasher>(&self, state: &mut H) {
        self.count.hash(state);
        feed(self.front, self.back, state);
    }
}

/// Feeds units one after another.
#[tactic(auto, using(crate::proofs::Units::fed_more))]
fn feed<H: Hasher>(front: &[Part], back: &[u16], state: &mut H)
    ensures { state.new ≡ fold H.write state.old (flat_map fed.u16 (flat front.now ++ back.now)) }
{
    for part in front {
        u16::hash_slice(part.units(), state);
    }
    u16::hash_slice(back, state);
}
