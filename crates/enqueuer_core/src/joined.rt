//! What joins answer.

use crate::job::Job;
use type_masks::Mask;
use world_state::Impact;

/// What a join did: each mask read was the mask now, or each lay in it, or one did not and nothing was added.
#[derive(Drop)]
pub enum Joined {
    Whole,
    Part,
    Dropped {
        slot: u32,
        read: Mask,
        current: Mask,
    },
}

/// Memory ran out at a join, which changed nothing.
#[derive(Drop)]
pub struct JoinRefused {
    pub job: Job,
    pub impact: Impact,
}
