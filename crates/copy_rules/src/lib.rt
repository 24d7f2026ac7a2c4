//! Impacts by rules that copy kinds from slot to slot, on which worklists are tried and timed.
#![tactic(auto)]

mod draw;
mod impacts;
mod rules;

pub use draw::draw_rules;
pub use rules::{CopyRules, Rule, SlotCopy};

#[cfg(test)]
mod tests;
