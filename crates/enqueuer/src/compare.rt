//! Whether what the workers joined is what the desk has.
ghost use Rattle.std.specs.Prelude.{◌≡◌, ◌<◌, IsTrue, length, IfOk};
ghost use Rattle.enqueuer_core.specs.Least.{IsOneOf};
ghost use Rattle.enqueuer_core.specs.Desks.{AreOf};
ghost use Rattle.enqueuer.specs.Lists.{AreAllOf};

use enqueuer_core::{Entry, Impacts};
use std::alloc::{AllocError, Global};
use world_state::{Fact, Impact, SlotRead};

/// Whether the history has, worker by worker and in order, just the impacts that the workers handed back.
pub fn is_history_of<I: Impacts>(
    alloc: Global,
    impacts: &I,
    history: &[Entry],
    lists: &[Vec<Impact>],
) -> Result<bool, AllocError>
    requires { AreAllOf (I.meaning impacts.now) lists.now }
    ensures { IfOk result (λ same. IsTrue same → AreOf (I.meaning impacts.now) history.now) }
{
    let mut seen = none_seen(alloc, lists.len())?;
    for entry in history {
        if !is_next(impacts, entry, lists, &mut seen) {
            return Ok(false);
        }
    }
    Ok(all_seen(lists, seen.as_slice()))
}

fn none_seen(alloc: Global, workers: usize) -> Result<Vec<usize>, AllocError>
    ensures { IfOk result (λ seen. length seen.items ≡ workers) }
{
    let mut seen = Vec::new(alloc);
    for _ in 0..workers {
        seen.push(0)?;
    }
    Ok(seen)
}

// Whether the entry's impact is the next one of its worker's list, which then counts as seen.
fn is_next<I: Impacts>(
    _impacts: &I,
    entry: &Entry,
    lists: &[Vec<Impact>],
    seen: &mut Vec<usize>,
) -> bool
    requires lists { AreAllOf (I.meaning _impacts.now) lists.now }
    requires seen { length seen.old.items ≡ length lists.now }
    ensures one { IsTrue result → IsOneOf (I.meaning _impacts.now) entry.now.impact }
    ensures seen { length seen.new.items ≡ length lists.now }
{
    let worker = entry.worker as usize;
    if worker >= lists.len() {
        return false;
    }
    let list = &lists[worker];
    let at = seen[worker];
    if at >= list.len() || !is_same_impact(&entry.impact, &list[at]) {
        return false;
    }
    seen[worker] = at + 1;
    true
}

fn all_seen(lists: &[Vec<Impact>], seen: &[usize]) -> bool {
    lists
        .iter()
        .zip(seen.iter())
        .all(|(list, at)| list.len() == *at)
}

/// Whether the roots are those of the impacts.
pub fn has_roots<I: Impacts>(impacts: &I, roots: &[Fact]) -> bool
    ensures { IsTrue result → roots.now ≡ (I.meaning impacts.now).roots }
{
    if roots.len() != impacts.root_count() as usize {
        return false;
    }
    for i in 0..impacts.root_count() {
        if !is_same_fact(roots[i as usize], impacts.root(i)) {
            return false;
        }
    }
    true
}

fn is_same_impact(a: &Impact, b: &Impact) -> bool
    ensures { IsTrue result → a.now ≡ b.now }
{
    a.member == b.member
        && are_same_reads(a.reads.as_slice(), b.reads.as_slice())
        && are_same_facts(a.facts.as_slice(), b.facts.as_slice())
}

fn are_same_facts(a: &[Fact], b: &[Fact]) -> bool
    ensures { IsTrue result → a.now ≡ b.now }
{
    if a.len() != b.len() {
        return false;
    }
    for i in 0..a.len() {
        if !is_same_fact(a[i], b[i]) {
            return false;
        }
    }
    true
}

fn is_same_fact(a: Fact, b: Fact) -> bool
    ensures { IsTrue result → a ≡ b }
{
    a == b
}

fn are_same_reads(a: &[SlotRead], b: &[SlotRead]) -> bool
    ensures { IsTrue result → a.now ≡ b.now }
{
    if a.len() != b.len() {
        return false;
    }
    for i in 0..a.len() {
        if !is_same_read(&a[i], &b[i]) {
            return false;
        }
    }
    true
}

fn is_same_read(a: &SlotRead, b: &SlotRead) -> bool
    ensures { IsTrue result → a.now ≡ b.now }
{
    a.slot == b.slot && a.mask.is_same(&b.mask)
}
