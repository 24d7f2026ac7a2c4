//! The rules of bodies that are told from a place in a file and from what is around it, without the rest of the program.
//!
//! - [`blocks`]: what scopes declare, and where it is named.
//! - [`jumps`]: jumps, and `this` and `super`.
//! - [`constructors`]: what constructors call before their bodies.
//! - [`declarations`]: what classes may not declare.
//! - [`lists`]: parameters and arguments.
//! - [`with_faults`]: the first broken rule, with those of one place more.
//! - [`first_in_file`]: the first of these rules that a file breaks.
#![tactic(auto)]

pub mod blocks;
pub mod constructors;
pub mod declarations;
mod faults;
pub mod jumps;
pub mod lists;
pub mod search;

pub use faults::with_faults;
pub use search::first_in_file;
