//! Jobs.
ghost use Rattle.std.specs.Prelude.{◌<◌};

use world_state::Snapshot;

/// A member that a worker holds, with the world as it was when it was taken.
#[derive(Drop)]
pub struct Job {
    pub worker: u32,
    pub member: u32,
    pub snapshot: Snapshot,
    ghost within: { member < snapshot.shape.members },
}
