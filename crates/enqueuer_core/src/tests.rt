ghost use Rattle.std.specs.Prelude.{◌≡◌, ◌<◌, IfOk, IfSome};
ghost use Rattle.enqueuer_core.specs.Least.{IsInShape};
ghost use Rattle.enqueuer_core.specs.Pair.{pair};
ghost use Rattle.enqueuer_core.specs.PairLaws.{pair_lawful};

use crate::{Desk, Impacts, Job, Joined};
use std::alloc::{AllocError, Global};
use std::test::Fail;
use type_masks::{Mask, Shape};
use world_state::{Fact, FactList, Impact, ReadList, SlotRead, Snapshot};

// Two members: 0 reads slot 0, and 1 gives kind 0 in slot 0.
#[derive(Drop)]
struct Pair {
    alloc: Global,
}

impl Impacts for Pair {
    ghost meaning = { λ p. pair };

    fn shape(&self) -> Shape {
        Shape {
            members: 2,
            slots: 1,
            kinds: 1,
        }
    }

    fn root_count(&self) -> u32 {
        2
    }

    fn root(&self, i: u32) -> Fact {
        Fact::Live { member: i }
    }

    fn impact(&self, member: u32, at: &Snapshot) -> Result<Impact, AllocError> {
        let mut reads = ReadList::new(self.alloc);
        let mut facts = FactList::new(self.alloc);
        if member == 0 {
            reads.push(SlotRead {
                slot: 0,
                mask: at.mask(0).copy()?,
            })?;
        } else {
            facts.push(Fact::In { slot: 0, kind: 0 })?;
        }
        Ok(Impact {
            member,
            reads,
            facts,
        })
    }

    ghost lawful = { λ p. pair_lawful };
}

// A job, and an impact of its member.
#[derive(Drop)]
struct Work {
    job: Job,
    impact: Impact,
    ghost member: { impact.member ≡ job.member },
}

// The first pending member, where the worker is idle.
fn taken(desk: &mut Desk, worker: u32) -> Result<Option<Job>, AllocError> {
    if !desk.idle(worker) {
        return Ok(None);
    }
    desk.take(worker)
}

// The member, where it is pending and the worker is idle.
fn claimed(desk: &mut Desk, worker: u32, member: u32) -> Result<Option<Job>, AllocError> {
    if !desk.idle(worker) {
        return Ok(None);
    }
    if member >= desk.shape().members {
        return Ok(None);
    }
    desk.claim(worker, member)
}

// The job with its member's impact, where the snapshot has the shape of the pair.
fn worked(impacts: &Pair, job: Job) -> Result<Option<Work>, AllocError>
    ensures { IfOk result (λ found. IfSome found (λ work. IsInShape work.job.snapshot.shape work.impact)) }
{
    if job.snapshot.shape() != impacts.shape() {
        return Ok(None);
    }
    let impact = impacts.impact(job.member, &job.snapshot)?;
    Ok(Some(Work { job, impact }))
}

// The job with an impact that reads slot 0 as kind 0.
fn made_up(alloc: Global, job: Job) -> Result<Option<Work>, AllocError>
    ensures { IfOk result (λ found. IfSome found (λ work. IsInShape work.job.snapshot.shape work.impact)) }
{
    if job.snapshot.shape().slots == 0 {
        return Ok(None);
    }
    let mut reads = ReadList::new(alloc);
    reads.push(SlotRead {
        slot: 0,
        mask: kind_0(alloc)?,
    })?;
    let impact = Impact {
        member: job.member,
        reads,
        facts: FactList::new(alloc),
    };
    Ok(Some(Work { job, impact }))
}

fn kind_0(alloc: Global) -> Result<Mask, AllocError> {
    let mut mask = Mask::new(alloc, 1);
    mask.add(0)?;
    Ok(mask)
}

// What the join answers, where the desk holds the job.
fn joined(desk: &mut Desk, work: Work) -> Result<Option<Joined>, AllocError>
    requires { IsInShape work.job.snapshot.shape work.impact }
{
    if !desk.holds(&work.job) {
        return Ok(None);
    }
    match desk.join(work.job, work.impact) {
        Ok(joined) => Ok(Some(joined)),
        Err(_) => Err(AllocError),
    }
}

fn give_back(desk: &mut Desk, job: Job) {
    if desk.holds(&job) {
        desk.give_back(job);
    }
}

fn finishes(desk: Desk, impacts: &Pair) -> bool {
    desk.finish(impacts).is_ok()
}

fn is_whole(answer: &Option<Joined>) -> bool {
    matches!(answer, Some(Joined::Whole))
}

fn is_part(answer: &Option<Joined>) -> bool {
    matches!(answer, Some(Joined::Part))
}

// Whether slot 0 was read as kind 0, and is empty.
fn is_dropped(answer: &Option<Joined>) -> bool {
    match answer {
        Some(
            Joined::Dropped {
                slot,
                read,
                current,
            },
        ) => *slot == 0 && read.only() == Some(0) && is_empty(current),
        _ => false,
    }
}

fn is_empty(mask: &Mask) -> bool {
    mask.iter().next().is_none()
}

// Whether slot 0 was read as empty, and no other slot.
fn reads_empty(impact: &Impact) -> bool {
    if impact.reads.len() != 1 {
        return false;
    }
    let read = impact.reads.get(0);
    read.slot == 0 && is_empty(&read.mask)
}

// How many facts the join of this number added.
fn added(desk: &Desk, i: u64) -> Option<u64> {
    let history = desk.history();
    if i >= history.len() {
        return None;
    }
    Some(history.get(i).added.len())
}

// Whether the worker is idle and nothing is pending.
fn finds_nothing(desk: &mut Desk, worker: u32) -> Result<bool, AllocError> {
    if !desk.idle(worker) {
        return Ok(false);
    }
    Ok(desk.take(worker)?.is_none())
}

// Whether this member is the first pending one; it is then behind all others.
fn is_first(desk: &mut Desk, member: u32) -> Result<bool, AllocError> {
    let Some(job) = taken(desk, 0)? else {
        return Ok(false);
    };
    let first = job.member == member;
    give_back(desk, job);
    Ok(first)
}

// Whether the worker can claim the member.
fn is_pending(desk: &mut Desk, member: u32) -> Result<bool, AllocError> {
    let Some(job) = claimed(desk, 0, member)? else {
        return Ok(false);
    };
    give_back(desk, job);
    Ok(true)
}

// What the first worker's next join answers, where its member is this one.
fn stepped(desk: &mut Desk, impacts: &Pair, member: u32) -> Result<Option<Joined>, AllocError> {
    let Some(job) = taken(desk, 0)? else {
        return Ok(None);
    };
    if job.member != member {
        return Ok(None);
    }
    let Some(work) = worked(impacts, job)? else {
        return Ok(None);
    };
    joined(desk, work)
}

// What the join of the made-up impact answers, where the first pending member is this one.
fn pretended(desk: &mut Desk, impacts: &Pair, member: u32) -> Result<Option<Joined>, AllocError> {
    let Some(job) = taken(desk, 0)? else {
        return Ok(None);
    };
    if job.member != member {
        return Ok(None);
    }
    let Some(work) = made_up(impacts.alloc, job)? else {
        return Ok(None);
    };
    joined(desk, work)
}

// Whether the second worker's join of member 1 is whole.
fn overtakes(desk: &mut Desk, impacts: &Pair) -> Result<bool, AllocError> {
    let Some(job) = claimed(desk, 1, 1)? else {
        return Ok(false);
    };
    let Some(work) = worked(impacts, job)? else {
        return Ok(false);
    };
    let answer = joined(desk, work)?;
    Ok(is_whole(&answer))
}

// What the first worker's join of member 0 answers, where its impact read slot 0 as empty and the second worker joined
// since then.
fn overtaken(desk: &mut Desk, impacts: &Pair) -> Result<Option<Joined>, AllocError> {
    let Some(job) = claimed(desk, 0, 0)? else {
        return Ok(None);
    };
    let Some(work) = worked(impacts, job)? else {
        return Ok(None);
    };
    if !reads_empty(&work.impact) {
        return Ok(None);
    }
    if !overtakes(desk, impacts)? {
        return Ok(None);
    }
    joined(desk, work)
}

// A desk over the pair that has not begun.
fn desk_over(impacts: &Pair, workers: u32) -> Result<Desk, AllocError>
    requires { 0 < workers }
{
    Desk::new(impacts.alloc, impacts, workers)
}

#[test]
fn a_reader_is_woken(rt: HostRuntime) -> Result<(), Fail> {
    let impacts = Pair { alloc: rt.alloc() };
    let mut desk = desk_over(&impacts, 1)?;
    let first = stepped(&mut desk, &impacts, 0)?;
    assert!(rt; is_whole(&first));
    let second = stepped(&mut desk, &impacts, 1)?;
    assert!(rt; is_whole(&second));
    let third = stepped(&mut desk, &impacts, 0)?;
    assert!(rt; is_whole(&third));
    assert!(rt; finds_nothing(&mut desk, 0)?);
    assert_eq!(rt; added(&desk, 0), Some(0));
    assert_eq!(rt; added(&desk, 1), Some(1));
    assert_eq!(rt; added(&desk, 2), Some(0));
    assert_eq!(rt; added(&desk, 3), None);
    assert!(rt; finishes(desk, &impacts));
    Ok(())
}

#[test]
fn a_read_that_never_was_is_dropped(rt: HostRuntime) -> Result<(), Fail> {
    let impacts = Pair { alloc: rt.alloc() };
    let mut desk = desk_over(&impacts, 1)?;
    let answer = pretended(&mut desk, &impacts, 0)?;
    assert!(rt; is_dropped(&answer));
    assert_eq!(rt; added(&desk, 0), None);
    assert!(rt; is_first(&mut desk, 1)?);
    assert!(rt; is_first(&mut desk, 0)?);
    assert!(rt; !finishes(desk, &impacts));
    Ok(())
}

#[test]
fn a_stale_join_is_a_part(rt: HostRuntime) -> Result<(), Fail> {
    let impacts = Pair { alloc: rt.alloc() };
    let mut desk = desk_over(&impacts, 2)?;
    let answer = overtaken(&mut desk, &impacts)?;
    assert!(rt; is_part(&answer));
    assert_eq!(rt; added(&desk, 0), Some(1));
    assert_eq!(rt; added(&desk, 1), Some(0));
    assert!(rt; is_pending(&mut desk, 0)?);
    assert!(rt; !finishes(desk, &impacts));
    Ok(())
}
