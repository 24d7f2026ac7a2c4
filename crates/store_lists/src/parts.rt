//! Units that lie in parts: several in front, and a last one.

ghost use Rattle.std.specs.Prelude.{◌≡◌, ◌-◌, ◌≤◌, ◌++◌, length, slice_get, take, drop, OnOk, IfOk};
ghost use Rattle.store_lists.specs.Parts.{flat};

use crate::share::Share;
use bumpalo::Bump;
use bumpalo::collections::into_bump_slice;
use std::alloc::AllocError;
use std::marker::Model;

/// A part of a text, seen as the list of its units.
#[derive(Drop)]
pub struct Part<'a> {
    units: &'a [u16],
}

impl<'a> Model for Part<'a> {
    ghost use Rattle.std.specs.Prelude.{List, ℕ};

    ghost Value = { List ℕ };

    ghost view = { λ part. part.units.now };
}

impl<'a> Part<'a> {
    pub(crate) fn units(&self) -> &'a [u16]
        ensures { result.now ≡ self.now }
    {
        self.units
    }
}

impl<'a> Share for Part<'a> {
    fn share(&self) -> Part<'a> {
        Part { units: self.units }
    }
}

/// The unit at a place, where there is one.
#[tactic(auto, using(crate::proofs::Units::here_in, crate::proofs::Units::behind_in, crate::proofs::Units::last_in))]
pub(crate) fn unit_in(front: &[Part], last: &[u16], at: usize) -> Option<u16>
    ensures { result ≡ slice_get (flat front.now ++ last.now) at }
{
    let mut rest = at;
    for part in front {
        let units = part.units();
        if rest < units.len() {
            return sqlite_items::at(units, rest).copied();
        }
        rest -= units.len();
    }
    sqlite_items::at(last, rest).copied()
}

/// Adds the units of a part that lie from one place up to, and without, another.
#[tactic(auto, using(crate::proofs::Units::taken_all, crate::proofs::Units::taken_turned, crate::proofs::Units::taken_behind))]
fn push_overlap(
    units: &mut Vec<u16, &Bump>,
    part: &[u16],
    from: usize,
    to: usize,
) -> Result<(), AllocError>
    ensures { OnOk result (units.new.items ≡ units.old.items ++ take (to - from) (drop from part.now)) }
{
    if to <= from || part.len() <= from {
        Ok(())
    } else if to <= part.len() {
        units.extend_from_slice(&part[from..to])
    } else {
        units.extend_from_slice(&part[from..])
    }
}

/// Adds the units that lie from one place up to, and without, another.
#[tactic(auto, using(crate::proofs::Units::range_in))]
pub(crate) fn push_range(
    units: &mut Vec<u16, &Bump>,
    front: &[Part],
    last: &[u16],
    from: usize,
    to: usize,
) -> Result<(), AllocError>
    ensures { OnOk result (units.new.items ≡ units.old.items ++ take (to - from) (drop from (flat front.now ++ last.now))) }
{
    let mut from = from;
    let mut to = to;
    for part in front {
        push_overlap(units, part.units(), from, to)?;
        from = from.saturating_sub(part.units().len());
        to = to.saturating_sub(part.units().len());
    }
    push_overlap(units, last, from, to)
}

/// Adds all units.
pub(crate) fn push_all(
    units: &mut Vec<u16, &Bump>,
    front: &[Part],
    last: &[u16],
) -> Result<(), AllocError>
    ensures { OnOk result (units.new.items ≡ units.old.items ++ (flat front.now ++ last.now)) }
{
    for part in front {
        units.extend_from_slice(part.units())?;
    }
    units.extend_from_slice(last)
}

/// How many parts in front stay as they are where so many units come behind them: each that stays is more than twice as
/// long as what then follows.
pub(crate) fn kept(front: &[Part], size: usize) -> usize
    ensures { result ≤ length front.now }
{
    let mut size = size;
    for back in 0..front.len() {
        let at = front.len() - 1 - back;
        let len = front[at].units().len();
        if len / 2 > size {
            return at + 1;
        }
        size = size.saturating_add(len);
    }
    0
}

/// The parts in front, and the last one behind them.
#[tactic(auto, using(crate::proofs::Units::pushed_last))]
pub(crate) fn with_part<'a>(
    arena: &'a Bump,
    front: &[Part<'a>],
    last: &'a [u16],
) -> Result<&'a [Part<'a>], AllocError>
    ensures { IfOk result (λ parts. flat parts.now ≡ flat front.now ++ last.now) }
{
    let mut parts = Vec::new(arena);
    for part in front {
        parts.push(part.share())?;
    }
    parts.push(Part { units: last })?;
    Ok(into_bump_slice(parts))
}
