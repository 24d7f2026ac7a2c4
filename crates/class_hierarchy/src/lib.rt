//! The classes of a program: their members, and what is found under names.
//!
//! - [`hierarchy`]: classes and members by number, and look-ups.
//! - [`resolved`]: a program with its names and its classes.
//! - [`building`]: the hierarchy of a program, where its classes break no rule.
#![tactic(auto)]

pub mod building;
pub mod hierarchy;
pub mod resolved;

pub use building::{ClassError, build};
pub use hierarchy::Hierarchy;
pub use resolved::Resolved;
