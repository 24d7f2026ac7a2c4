//! One worker alone.
ghost use Rattle.std.specs.Prelude.{◌≡◌, ◌<◌, IfOk, true, false, []};
ghost use Rattle.enqueuer_core.specs.Least.{IsLeast};
ghost use Rattle.enqueuer.specs.Alone.{IsAlone, work_left};

use enqueuer_core::{Desk, Impacts};
use std::alloc::{AllocError, Global};
use world_state::World;

/// The least world, by the caller's thread. It waits for nobody.
pub fn close_world_alone<I: Impacts>(alloc: Global, impacts: &I) -> Result<World, AllocError>
    ensures { IfOk result (λ world. IsLeast (I.meaning impacts.now) world) }
{
    let desk = Desk::new(alloc, impacts, 1)?;
    go_on_alone(desk, impacts)
}

/// Works on until nothing is pending, and finishes.
pub fn go_on_alone<I: Impacts>(desk: Desk, impacts: &I) -> Result<World, AllocError>
    requires { IsAlone (I.meaning impacts.now) desk }
    ensures { IfOk result (λ world. IsLeast (I.meaning impacts.now) world) }
{
    let desk = worked_off(desk, impacts)?;
    match desk.finish(impacts) {
        Ok(world) => Ok(world),
        Err(_) => unreachable!(),
    }
}

// Works on until nothing is pending.
fn worked_off<I: Impacts>(mut desk: Desk, impacts: &I) -> Result<Desk, AllocError>
    requires { IsAlone (I.meaning impacts.now) desk }
    ensures alone { IfOk result (λ after. IsAlone (I.meaning impacts.now) after) }
    ensures done { IfOk result (λ after. after.pending ≡ []) }
{
    'steps: loop {
        if !step_alone(&mut desk, impacts)? {
            return Ok(desk);
        }
    }
}

// Takes a member and joins its impact, and answers whether there was one.
fn step_alone<I: Impacts>(desk: &mut Desk, impacts: &I) -> Result<bool, AllocError>
    requires { IsAlone (I.meaning impacts.now) desk.old }
    ensures alone { IfOk result (λ more. IsAlone (I.meaning impacts.now) desk.new) }
    ensures less { IfOk result (λ more. more ≡ true → work_left desk.new < work_left desk.old) }
    ensures end { IfOk result (λ more. more ≡ false → desk.new.pending ≡ []) }
{
    let Some(job) = desk.take(0)? else {
        return Ok(false);
    };
    let impact = impacts.impact(job.member, &job.snapshot)?;
    match desk.join(job, impact) {
        Ok(_) => Ok(true),
        Err(_) => Err(AllocError),
    }
}
