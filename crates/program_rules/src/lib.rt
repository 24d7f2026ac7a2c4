//! The rules of bodies, for a whole program.
//!
//! - [`bodies`]: the first of them that a program breaks.
#![tactic(auto)]

pub mod bodies;
