//! Rules that copy kinds from slot to slot.

use std::alloc::Global;
use type_masks::Shape;
use world_state::FactList;

/// Each kind of the one slot goes to the other.
#[derive(Clone, Copy, Debug, PartialEq, Eq)]
pub struct SlotCopy {
    pub from: u32,
    pub to: u32,
}

/// What a member gives: the facts, and the kinds that it copies. What does not lie in the shape counts for nothing.
#[derive(Drop)]
pub struct Rule {
    pub copies: Vec<SlotCopy>,
    pub facts: FactList,
}

/// The rule of each member. The members below `first` are live from the start.
#[derive(Drop)]
pub struct CopyRules {
    pub alloc: Global,
    pub shape: Shape,
    pub first: u32,
    pub rules: Vec<Rule>,
}
