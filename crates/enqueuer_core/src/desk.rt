//! The desk: the state of the core that workers share.
ghost use Rattle.std.specs.Prelude.{◌≡◌, ◌<◌, ◌∷◌, [], ◌++◌, ℕ, true, false, IfOk, OnOk, OnErr, IfErr, IfSome, IfNone, IsTrue, ◌↔◌, length, Some, None, List, if◌then◌else◌, is_some, replicate};
ghost use Rattle.std.specs.List.{AllByRecursion, list_any};
ghost use Rattle.world_state.specs.Worlds.{absent_of};
ghost use Rattle.enqueuer_core.specs.Least.{IsInShape, IsLeast};
ghost use Rattle.enqueuer_core.specs.Core.{Join, Give_back, Reclaim, happens, held_by, start, all_within, all_same, settled_by, times, IsState, IsIdle, accepted, returned};
ghost use Rattle.enqueuer_core.specs.Desks.{IsVerdict, IsTaken, AreOf};

use crate::history::{Entry, History, record};
use crate::impacts::Impacts;
use crate::job::Job;
use crate::joined::{JoinRefused, Joined};
use crate::readers::Readers;
use crate::waking::{enlist, wake};
use crate::worklist::{live_members, put_held};
use index_links::Links;
use std::alloc::{AllocError, Global};
use std::marker::Model;
use type_masks::Shape;
use world_state::{FactList, Impact, SlotRead, World};

/// The state of the core: the world, the pending members in order, the impacts that members settled on, the member that
/// each worker holds, and the history of joins.
#[derive(Drop)]
pub struct Desk {
    shape: Shape,
    roots: FactList,
    world: World,
    pending: Links,
    settled: Vec<Option<Impact>>,
    // Of each slot. The value has no part of them, nor of the marks.
    readers: Vec<Readers>,
    // Of each member, all unset between calls, so that waking takes no memory.
    marks: Vec<bool>,
    held: Vec<Option<u32>>,
    history: History,
}

impl Model for Desk {
    ghost use Rattle.enqueuer_core.specs.Core.{State, IsState};
    ghost use Rattle.enqueuer_core.specs.Codes.{coded_State};

    ghost Value = { State };

    ghost coded = { coded_State };

    ghost use Rattle.enqueuer_core.specs.Inside.{state_of, IsDesk};

    ghost view = { state_of };

    ghost invariant = { IsDesk };
}

impl Desk {
    /// The start: the roots hold, and the live members are pending in number order.
    pub fn new<I: Impacts>(alloc: Global, impacts: &I, workers: u32) -> Result<Desk, AllocError>
        requires { 0 < workers }
        ensures { IfOk result (λ desk. desk ≡ start (I.meaning impacts.now).shape (I.meaning impacts.now).roots workers) }
    {
        let shape = impacts.shape();
        let roots = gathered(alloc, impacts)?;
        let mut world = World::new(alloc, shape)?;
        world.add_facts(&roots)?;
        let pending = live_members(alloc, &world, shape.members)?;
        Ok(Desk {
            shape,
            roots,
            world,
            pending,
            settled: no_impacts(alloc, shape.members)?,
            readers: no_readers(alloc, shape.slots)?,
            marks: no_marks(alloc, shape.members)?,
            held: no_members(alloc, workers)?,
            history: History {
                entries: Vec::new(alloc),
            },
        })
    }

    /// How many members, slots and kinds the desk is for.
    pub fn shape(&self) -> Shape
        ensures shape { result ≡ self.now.shape }
        ensures state { IsState self.now }
    {
        self.shape
    }

    /// The facts that held from the start.
    pub fn roots(&self) -> &FactList
        ensures { result.now ≡ self.now.roots }
    {
        &self.roots
    }

    /// The joins that were not dropped.
    pub fn history(&self) -> &History
        ensures { result.now.entries.items ≡ self.now.history }
    {
        &self.history
    }

    /// Whether the worker exists and holds no job.
    pub fn idle(&self, worker: u32) -> bool
        ensures { IsTrue result ↔ ((worker < length self.now.held) × (held_by self.now worker ≡ None)) }
    {
        (worker as usize) < self.held.len() && self.held[worker as usize].is_none()
    }

    /// Whether the job's worker holds the job's member, and the snapshot has the desk's shape.
    pub fn holds(&self, job: &Job) -> bool
        ensures { IsTrue result ↔ ((held_by self.now job.now.worker ≡ Some job.now.member) × (job.now.snapshot.shape ≡ self.now.shape)) }
    {
        (job.worker as usize) < self.held.len()
            && self.held[job.worker as usize] == Some(job.member)
            && job.snapshot.shape() == self.shape
    }

    /// Takes the first pending member, with a snapshot of the world. An `Err` changes nothing.
    pub fn take(&mut self, worker: u32) -> Result<Option<Job>, AllocError>
        requires { (worker < length self.old.held) × (held_by self.old worker ≡ None) }
        ensures none { IfOk result (λ taken. IfNone taken ((self.old.pending ≡ []) × (self.new ≡ self.old))) }
        ensures some { IfOk result (λ taken. IfSome taken (λ job. IsTaken self.old self.new worker job × (rest : List ℕ) × (self.old.pending ≡ job.member ∷ rest))) }
        ensures err { OnErr result (self.new ≡ self.old) }
    {
        match self.pending.first(0) {
            None => Ok(None),
            Some(member) => Ok(Some(self.hold(worker, member)?)),
        }
    }

    /// Takes this member, if it is pending. An `Err` changes nothing.
    pub fn claim(&mut self, worker: u32, member: u32) -> Result<Option<Job>, AllocError>
        requires worker { (worker < length self.old.held) × (held_by self.old worker ≡ None) }
        requires member { member < self.old.shape.members }
        ensures none { IfOk result (λ taken. IfNone taken ((times member self.old.pending ≡ 0) × (self.new ≡ self.old))) }
        ensures some { IfOk result (λ taken. IfSome taken (λ job. IsTaken self.old self.new worker job × (job.member ≡ member))) }
        ensures err { OnErr result (self.new ≡ self.old) }
    {
        match self.pending.list_of(member) {
            None => Ok(None),
            Some(_) => Ok(Some(self.hold(worker, member)?)),
        }
    }

    /// The job's member is pending again, behind all others.
    pub fn give_back(&mut self, job: Job)
        requires { (held_by self.old job.worker ≡ Some job.member) × (job.snapshot.shape ≡ self.old.shape) }
        ensures { self.new ≡ happens self.old (Give_back job.worker) }
    {
        self.put_back(job.worker, job.member);
    }

    /// Every held member is pending again, behind all others, in number order.
    pub fn reclaim(&mut self)
        ensures { self.new ≡ happens self.old Reclaim }
    {
        put_held(&mut self.pending, self.held.as_slice(), self.shape.members);
        release(&mut self.held);
    }

    /// Joins an impact of the job's member. An `Err` is want of memory, and changes nothing.
    pub fn join(&mut self, job: Job, impact: Impact) -> Result<Joined, JoinRefused>
        requires holds { (held_by self.old job.worker ≡ Some job.member) × (job.snapshot.shape ≡ self.old.shape) }
        requires member { impact.member ≡ job.member }
        requires shape { IsInShape self.old.shape impact }
        ensures event { OnOk result (self.new ≡ happens self.old (Join job.worker impact)) }
        ensures verdict { IfOk result (IsVerdict self.old.world impact.reads) }
        ensures err { IfErr result (λ refused. (self.new ≡ self.old) × (refused.job ≡ job) × (refused.impact ≡ impact)) }
    {
        let verdict = match judged(&self.world, impact.reads.as_slice()) {
            Ok(verdict) => verdict,
            Err(_) => return Err(JoinRefused { job, impact }),
        };
        let whole = match &verdict {
            Joined::Whole => true,
            Joined::Part => false,
            Joined::Dropped { .. } => {
                self.put_back(job.worker, job.member);
                return Ok(verdict);
            }
        };
        match self.accept(job.worker, impact, whole) {
            Ok(()) => Ok(verdict),
            Err(impact) => Err(JoinRefused { job, impact }),
        }
    }

    /// The world, where nothing is pending and nothing held.
    pub fn finish<I: Impacts>(self, impacts: &I) -> Result<World, Desk>
        ensures ok { IfOk result (λ world. IsIdle self × (world ≡ self.world)) }
        ensures least { IfOk result (λ world. self.shape ≡ (I.meaning impacts.now).shape → self.roots ≡ (I.meaning impacts.now).roots
            → AreOf (I.meaning impacts.now) self.history → IsLeast (I.meaning impacts.now) world) }
        ensures err { IfErr result (λ desk. (desk ≡ self) × (IsIdle self → ⊥)) }
    {
        let _ = impacts;
        if self.pending.first(0).is_some() || some_held(self.held.as_slice()) {
            return Err(self);
        }
        let Desk {
            shape: _,
            roots: _,
            world,
            pending: _,
            settled: _,
            readers: _,
            marks: _,
            held: _,
            history: _,
        } = self;
        Ok(world)
    }

    // Takes a pending member. An `Err` changes nothing.
    fn hold(&mut self, worker: u32, member: u32) -> Result<Job, AllocError>
        requires worker { (worker < length self.old.held) × (held_by self.old worker ≡ None) }
        requires member { 0 < times member self.old.pending }
        ensures ok { IfOk result (λ job. IsTaken self.old self.new worker job × (job.member ≡ member)) }
        ensures err { OnErr result (self.new ≡ self.old) }
    {
        let snapshot = self.world.snapshot()?;
        self.pending.remove(member);
        self.held[worker as usize] = Some(member);
        Ok(Job {
            worker,
            member,
            snapshot,
        })
    }

    // The worker's member is pending again, behind all others.
    fn put_back(&mut self, worker: u32, member: u32)
        requires { held_by self.old worker ≡ Some member }
        ensures { self.new ≡ returned self.old worker member }
    {
        self.pending.push_back(0, member);
        self.held[worker as usize] = None;
    }

    // Joins an impact that is not dropped. An `Err` hands it back, and changes nothing.
    fn accept(&mut self, worker: u32, impact: Impact, whole: bool) -> Result<(), Impact>
        requires holds { held_by self.old worker ≡ Some impact.member }
        requires shape { IsInShape self.old.shape impact }
        requires within { all_within self.old.world impact.reads ≡ true }
        requires whole { whole ≡ all_same self.old.world impact.reads }
        ensures ok { OnOk result (self.new ≡ accepted self.old worker impact whole (absent_of self.old.world impact.facts)) }
        ensures err { IfErr result (λ back. (self.new ≡ self.old) × (back ≡ impact)) }
    {
        let kept = match kept_of(&impact, whole) {
            Ok(kept) => kept,
            Err(_) => return Err(impact),
        };
        match self.history.entries.reserve(1) {
            Ok(()) => (),
            Err(_) => return Err(impact),
        }
        match enlist(&mut self.readers, &impact, whole) {
            Ok(()) => (),
            Err(_) => return Err(impact),
        }
        let added = match self.world.add_facts(&impact.facts) {
            Ok(added) => added,
            Err(_) => return Err(impact),
        };
        let member = impact.member;
        settle(&mut self.settled, member, kept);
        wake(
            &mut self.pending,
            &mut self.settled,
            &mut self.readers,
            &mut self.marks,
            added.as_slice(),
            self.shape.members,
            member,
            whole,
        );
        let entry = Entry {
            worker,
            impact,
            whole,
            added,
        };
        record(&mut self.history.entries, entry);
        self.held[worker as usize] = None;
        Ok(())
    }
}

// What a member settles on: its impact, where the join is whole.
fn kept_of(impact: &Impact, whole: bool) -> Result<Option<Impact>, AllocError>
    ensures { IfOk result (λ kept. kept ≡ (if whole then Some impact.now else None)) }
{
    if whole {
        Ok(Some(impact.copy()?))
    } else {
        Ok(None)
    }
}

fn settle(settled: &mut Vec<Option<Impact>>, member: u32, kept: Option<Impact>)
    requires { member < length settled.old.items }
    ensures { settled.new.items ≡ settled_by settled.old.items member kept }
{
    if kept.is_some() {
        settled[member as usize] = kept;
    }
}

fn some_held(held: &[Option<u32>]) -> bool
    ensures { result ≡ list_any is_some held.now }
{
    held.iter().any(|h| h.is_some())
}

fn release(held: &mut Vec<Option<u32>>)
    ensures { held.new.items ≡ replicate (length held.old.items) None }
{
    for i in 0..held.len() {
        held[i] = None;
    }
}

// Whole, Part or Dropped, by the masks now.
fn judged(world: &World, reads: &[SlotRead]) -> Result<Joined, AllocError>
    requires { AllByRecursion (λ r. r.slot < world.now.shape.slots) reads.now }
    ensures { IfOk result (IsVerdict world.now reads.now) }
{
    let mut same = true;
    for read in reads {
        let current = world.mask(read.slot);
        if !read.mask.is_sub(current) {
            return Ok(Joined::Dropped {
                slot: read.slot,
                read: read.mask.copy()?,
                current: current.copy()?,
            });
        }
        if !read.mask.is_same(current) {
            same = false;
        }
    }
    Ok(if same { Joined::Whole } else { Joined::Part })
}

fn gathered<I: Impacts>(alloc: Global, impacts: &I) -> Result<FactList, AllocError>
    ensures { IfOk result (λ roots. roots ≡ (I.meaning impacts.now).roots) }
{
    let mut roots = FactList::new(alloc);
    for i in 0..impacts.root_count() {
        roots.push(impacts.root(i))?;
    }
    Ok(roots)
}

fn no_impacts(alloc: Global, members: u32) -> Result<Vec<Option<Impact>>, AllocError>
    ensures { IfOk result (λ v. v.items ≡ replicate members None) }
{
    let mut none = Vec::new(alloc);
    for _ in 0..members {
        none.push(None)?;
    }
    Ok(none)
}

fn no_readers(alloc: Global, slots: u32) -> Result<Vec<Readers>, AllocError>
    ensures { IfOk result (λ v. v.items ≡ replicate slots []) }
{
    let mut none = Vec::new(alloc);
    for _ in 0..slots {
        none.push(Readers::new(alloc))?;
    }
    Ok(none)
}

fn no_marks(alloc: Global, members: u32) -> Result<Vec<bool>, AllocError>
    ensures { IfOk result (λ v. v.items ≡ replicate members false) }
{
    let mut none = Vec::new(alloc);
    for _ in 0..members {
        none.push(false)?;
    }
    Ok(none)
}

fn no_members(alloc: Global, workers: u32) -> Result<Vec<Option<u32>>, AllocError>
    ensures { IfOk result (λ v. v.items ≡ replicate workers None) }
{
    let mut none = Vec::new(alloc);
    for _ in 0..workers {
        none.push(None)?;
    }
    Ok(none)
}
