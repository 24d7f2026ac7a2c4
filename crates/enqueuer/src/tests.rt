ghost use Rattle.std.specs.Prelude.{◌≤◌};
ghost use Rattle.enqueuer_core.specs.Pair.{pair};
ghost use Rattle.enqueuer_core.specs.PairLaws.{pair_lawful};
ghost use Rattle.copy_rules.specs.Copying.{meaning_of};
ghost use Rattle.copy_rules.specs.Laws.{copying_lawful};

use crate::{close_world, close_world_alone};
use copy_rules::{CopyRules, draw_rules};
use enqueuer_core::Impacts;
use outside::{Gate, NoGate};
use std::alloc::{AllocError, Global};
use std::sync::Wait;
use std::sync::atomic::{AtomicU64, Ordering};
use std::test::Fail;
use std::thread;
use std::thread::Threads;
use type_masks::Shape;
use world_state::{Fact, FactList, Impact, ReadList, SlotRead, Snapshot, World};

// Two members: 0 reads slot 0, and 1 gives kind 0 in slot 0.
#[derive(Drop)]
struct Pair {
    alloc: Global,
}

impl Impacts for Pair {
    ghost meaning = { λ p. pair };

    fn shape(&self) -> Shape {
        Shape {
            members: 2,
            slots: 1,
            kinds: 1,
        }
    }

    fn root_count(&self) -> u32 {
        2
    }

    fn root(&self, i: u32) -> Fact {
        Fact::Live { member: i }
    }

    fn impact(&self, member: u32, at: &Snapshot) -> Result<Impact, AllocError> {
        let mut reads = ReadList::new(self.alloc);
        let mut facts = FactList::new(self.alloc);
        if member == 0 {
            reads.push(SlotRead {
                slot: 0,
                mask: at.mask(0).copy()?,
            })?;
        } else {
            facts.push(Fact::In { slot: 0, kind: 0 })?;
        }
        Ok(Impact {
            member,
            reads,
            facts,
        })
    }

    ghost lawful = { λ p. pair_lawful };
}

// Holds the first arrival of each of two workers until the other one has arrived too, for at most so many turns.
#[derive(Drop)]
struct Meeting {
    first: AtomicU64,
    second: AtomicU64,
    missed: AtomicU64,
    turns: u64,
}

impl Meeting {
    fn arrivals(&self, worker: u32) -> &AtomicU64 {
        if worker == 0 {
            &self.first
        } else {
            &self.second
        }
    }
}

impl Gate for Meeting {
    fn arrive(&self, worker: u32, _turn: u32) {
        if self.arrivals(worker).fetch_add(1, Ordering::SeqCst) > 0 {
            return;
        }
        let other = self.arrivals(if worker == 0 { 1 } else { 0 });
        for _ in 0..self.turns {
            if other.load(Ordering::SeqCst) > 0 {
                return;
            }
            thread::yield_now();
        }
        self.missed.store(1, Ordering::SeqCst);
    }
}

#[test]
fn two_jobs_at_once(rt: HostRuntime) -> Result<(), Fail> {
    let impacts = Pair { alloc: rt.alloc() };
    let gate = Meeting {
        first: AtomicU64::new(0),
        second: AtomicU64::new(0),
        missed: AtomicU64::new(0),
        turns: 100_000_000,
    };
    let world = close_world(&rt, rt.alloc(), &impacts, &gate, 2)?;
    assert!(rt; gate.first.load(Ordering::SeqCst) > 0);
    assert!(rt; gate.second.load(Ordering::SeqCst) > 0);
    assert_eq!(rt; gate.missed.load(Ordering::SeqCst), 0);
    assert_eq!(rt; world.shape().slots, 1);
    Ok(())
}

#[test]
fn alone_and_by_sixteen(rt: HostRuntime) -> Result<(), Fail> {
    let impacts = Pair { alloc: rt.alloc() };
    let alone = close_world_alone(rt.alloc(), &impacts)?;
    assert_eq!(rt; alone.shape().slots, 1);
    assert!(rt; alone.is_live(0) && alone.is_live(1) && alone.mask(0).has(0));
    let many = close_world(&rt, rt.alloc(), &impacts, &NoGate, 16)?;
    assert_eq!(rt; many.shape().slots, 1);
    assert!(rt; many.is_live(0) && many.is_live(1) && many.mask(0).has(0));
    Ok(())
}

// Rules of which one call for an impact finds no memory; calls are counted from 1.
#[derive(Drop)]
struct Failing {
    rules: CopyRules,
    next: AtomicU64,
    fails: u64,
}

impl Impacts for Failing {
    ghost meaning = { λ f. meaning_of f.rules.shape f.rules.first f.rules.rules.items };

    fn shape(&self) -> Shape {
        self.rules.shape()
    }

    fn root_count(&self) -> u32 {
        self.rules.root_count()
    }

    fn root(&self, i: u32) -> Fact {
        self.rules.root(i)
    }

    fn impact(&self, member: u32, at: &Snapshot) -> Result<Impact, AllocError> {
        if self.next.fetch_add(1, Ordering::SeqCst) == self.fails {
            return Err(AllocError);
        }
        self.rules.impact(member, at)
    }

    ghost lawful = { λ f. copying_lawful f.rules.shape f.rules.first f.rules.rules.items };
}

// Whether both worlds have one shape, the same masks and the same live members.
fn are_same(a: &World, b: &World) -> bool {
    if a.shape() != b.shape() {
        return false;
    }
    have_same_masks(a, b) && have_same_members(a, b)
}

fn have_same_masks(a: &World, b: &World) -> bool {
    for slot in 0..a.shape().slots {
        if slot >= b.shape().slots {
            return false;
        }
        if !a.mask(slot).is_same(b.mask(slot)) {
            return false;
        }
    }
    true
}

fn have_same_members(a: &World, b: &World) -> bool {
    for member in 0..a.shape().members {
        if a.is_live(member) != b.is_live(member) {
            return false;
        }
    }
    true
}

fn live_count(world: &World) -> u32 {
    let mut count = 0u32;
    for member in 0..world.shape().members {
        if world.is_live(member) {
            count = count.saturating_add(1);
        }
    }
    count
}

// Thirty members, which are all live from the start.
fn thirty(alloc: Global) -> Result<CopyRules, AllocError> {
    let shape = Shape {
        members: 30,
        slots: 10,
        kinds: 4,
    };
    draw_rules(alloc, shape, 30, 3, 1)
}

// Whether the call of this number came and found no memory, and no world but this one was answered.
fn fails_well<Rt: Threads + Wait + Sync>(
    rt: &Rt,
    alloc: Global,
    fails: u64,
    least: &World,
) -> Result<bool, AllocError> {
    let impacts = Failing {
        rules: thirty(alloc)?,
        next: AtomicU64::new(1),
        fails,
    };
    let same = match close_world(rt, alloc, &impacts, &NoGate, 2) {
        Ok(world) => are_same(&world, least),
        Err(_) => true,
    };
    Ok(same && impacts.next.load(Ordering::SeqCst) > fails)
}

#[test]
fn want_of_memory_changes_no_world(rt: HostRuntime) -> Result<(), Fail> {
    let rules = thirty(rt.alloc())?;
    let least = close_world_alone(rt.alloc(), &rules)?;
    for fails in 1..=20 {
        assert!(rt; fails_well(&rt, rt.alloc(), fails, &least)?);
    }
    Ok(())
}

// Two thousand members, of which a hundred are live from the start.
fn two_thousand(alloc: Global) -> Result<CopyRules, AllocError> {
    let shape = Shape {
        members: 2_000,
        slots: 200,
        kinds: 4,
    };
    draw_rules(alloc, shape, 100, 2, 1)
}

// Whether so many workers find this world.
fn finds<Rt: Threads + Wait + Sync>(
    rt: &Rt,
    alloc: Global,
    rules: &CopyRules,
    workers: u32,
    alone: &World,
) -> Result<bool, AllocError>
    requires { (2 ≤ workers) × (workers ≤ 16) }
{
    let world = close_world(rt, alloc, rules, &NoGate, workers)?;
    Ok(are_same(&world, alone))
}

#[test]
fn all_workers_find_one_world(rt: HostRuntime) -> Result<(), Fail> {
    let rules = two_thousand(rt.alloc())?;
    let alone = close_world_alone(rt.alloc(), &rules)?;
    let live = live_count(&alone);
    assert!(rt; live > 1_000);
    assert!(rt; live < 2_000);
    assert!(rt; finds(&rt, rt.alloc(), &rules, 2, &alone)?);
    assert!(rt; finds(&rt, rt.alloc(), &rules, 5, &alone)?);
    assert!(rt; finds(&rt, rt.alloc(), &rules, 16, &alone)?);
    Ok(())
}
