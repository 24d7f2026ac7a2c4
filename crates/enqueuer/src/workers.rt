//! Many workers.
ghost use Rattle.std.specs.Prelude.{◌≡◌, ◌≤◌, IfOk};
ghost use Rattle.enqueuer_core.specs.Least.{IsLeast};
ghost use Rattle.world_state.specs.Worlds.{IsWorld};
ghost use Rattle.enqueuer.specs.Lists.{AllOneOf, AreAllOf};

use crate::alone::{close_world_alone, go_on_alone};
use crate::compare::{has_roots, is_history_of};
use enqueuer_core::{Desk, Impacts, Job, Joined};
use outside::Gate;
use std::alloc::{AllocError, Global};
use std::sync::{Mutex, Wait};
use std::thread;
use std::thread::Threads;
use world_state::{Impact, World};

/// The least world, by two to sixteen workers.
pub fn close_world<Rt: Threads + Wait + Sync, I: Impacts + Sync, G: Gate + Sync>(
    rt: &Rt,
    alloc: Global,
    impacts: &I,
    gate: &G,
    workers: u32,
) -> Result<World, AllocError>
    requires { (2 ≤ workers) × (workers ≤ 16) }
    ensures { IfOk result (λ world. IsLeast (I.meaning impacts.now) world) }
{
    let desk = Mutex::new(Desk::new(alloc, impacts, workers)?);
    let lists = all_lists(rt, alloc, impacts, gate, &desk, workers)?;
    finished(alloc, impacts, desk.into_inner(), lists.as_slice())
}

// What each worker joined.
fn all_lists<Rt: Threads + Wait + Sync, I: Impacts + Sync, G: Gate + Sync>(
    rt: &Rt,
    alloc: Global,
    impacts: &I,
    gate: &G,
    desk: &Mutex<Desk>,
    workers: u32,
) -> Result<Vec<Vec<Impact>>, AllocError>
    ensures { IfOk result (λ lists. AreAllOf (I.meaning impacts.now) lists.items) }
{
    let mut numbers = Vec::new(alloc);
    for worker in 0..workers {
        numbers.push(worker)?;
    }
    let job = |worker: u32| -> Vec<Impact>
        ensures { AllOneOf (I.meaning impacts.entry.now) result.items }
    { work(rt, alloc, impacts, gate, desk, worker) };
    thread::map_vec(rt, numbers, &job)
}

// Goes on alone where the history is that of the lists, and else begins anew.
fn finished<I: Impacts>(
    alloc: Global,
    impacts: &I,
    mut desk: Desk,
    lists: &[Vec<Impact>],
) -> Result<World, AllocError>
    requires { AreAllOf (I.meaning impacts.now) lists.now }
    ensures { IfOk result (λ world. IsLeast (I.meaning impacts.now) world) }
{
    let same_history = is_history_of(alloc, impacts, desk.history().as_slice(), lists)?;
    let agrees = same_history
        && desk.shape() == impacts.shape()
        && has_roots(impacts, desk.roots().as_slice());
    if !agrees {
        return close_world_alone(alloc, impacts);
    }
    desk.reclaim();
    if !desk.idle(0) {
        return close_world_alone(alloc, impacts);
    }
    go_on_alone(desk, impacts)
}

// One worker's turns, and a copy of each impact that it joined.
fn work<Rt: Wait, I: Impacts, G: Gate>(
    rt: &Rt,
    alloc: Global,
    impacts: &I,
    gate: &G,
    desk: &Mutex<Desk>,
    worker: u32,
) -> Vec<Impact>
    ensures { AllOneOf (I.meaning impacts.now) result.items }
{
    let mut joined = Vec::new(alloc);
    for turn in 0..turns_for(impacts.shape().members) {
        match take_job(rt, desk, worker) {
            Taken::Nothing => (),
            Taken::Ended => break,
            Taken::Job(job) => {
                gate.arrive(worker, turn);
                if !work_on(rt, impacts, desk, job, &mut joined) {
                    break;
                }
            }
        }
    }
    joined
}

// At most 16 turns per member, and 16 more.
fn turns_for(members: u32) -> u32 {
    members.saturating_mul(16).saturating_add(16)
}

// What a hold of the lock for a job gives.
#[derive(Drop)]
enum Taken {
    Job(Job),
    Nothing,
    Ended,
}

// One hold of the lock.
fn take_job<Rt: Wait>(rt: &Rt, desk: &Mutex<Desk>, worker: u32) -> Taken {
    let mut guard = desk.lock(rt);
    let desk = &mut *guard;
    if !desk.idle(worker) {
        return Taken::Ended;
    }
    match desk.take(worker) {
        Ok(Some(job)) => Taken::Job(job),
        Ok(None) => Taken::Nothing,
        Err(_) => Taken::Ended,
    }
}

// One hold of the lock.
fn give_back<Rt: Wait>(rt: &Rt, desk: &Mutex<Desk>, job: Job) {
    let mut guard = desk.lock(rt);
    let desk = &mut *guard;
    if desk.holds(&job) {
        desk.give_back(job);
    }
}

// Computes the job's impact with no lock held, joins it, keeps a copy, and answers whether to go on.
fn work_on<Rt: Wait, I: Impacts>(
    rt: &Rt,
    impacts: &I,
    desk: &Mutex<Desk>,
    job: Job,
    joined: &mut Vec<Impact>,
) -> bool
    requires { AllOneOf (I.meaning impacts.now) joined.old.items }
    ensures { AllOneOf (I.meaning impacts.now) joined.new.items }
{
    if job.snapshot.shape() != impacts.shape() {
        give_back(rt, desk, job);
        return false;
    }
    let Ok(impact) = impacts.impact(job.member, &job.snapshot) else {
        give_back(rt, desk, job);
        return false;
    };
    let Ok(copy) = impact.copy() else {
        give_back(rt, desk, job);
        return false;
    };
    if joined.push(copy).is_err() {
        give_back(rt, desk, job);
        return false;
    }
    match join_now(rt, impacts, desk, job, impact) {
        Ended::Kept => true,
        Ended::Dropped => {
            let _ = joined.pop();
            true
        }
        Ended::Refused(job) => {
            let _ = joined.pop();
            give_back(rt, desk, job);
            false
        }
        Ended::Lost => {
            let _ = joined.pop();
            false
        }
    }
}

// What a hold of the lock for a join gives.
#[derive(Drop)]
enum Ended {
    Kept,
    Dropped,
    Refused(Job),
    Lost,
}

// One hold of the lock.
fn join_now<Rt: Wait, I: Impacts>(
    rt: &Rt,
    impacts: &I,
    desk: &Mutex<Desk>,
    job: Job,
    impact: Impact,
) -> Ended
    requires shape { job.snapshot.shape ≡ (I.meaning impacts.now).shape }
    requires world { IsWorld job.snapshot }
    requires is { impact ≡ (I.meaning impacts.now).impact job.member job.snapshot }
{
    let _ = impacts;
    let mut guard = desk.lock(rt);
    let desk = &mut *guard;
    if !desk.holds(&job) {
        return Ended::Lost;
    }
    match desk.join(job, impact) {
        Ok(Joined::Dropped { .. }) => Ended::Dropped,
        Ok(_) => Ended::Kept,
        Err(refused) => Ended::Refused(refused.job),
    }
}
