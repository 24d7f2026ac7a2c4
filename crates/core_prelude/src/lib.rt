//! The library that every program begins with: its text, and the names in it that a compiler begins with.
//!
//! - [`text`]: the text of the library.
//! - [`tables`]: its natives and its roots.
#![tactic(auto)]

pub mod tables;
#[cfg(test)]
mod tests;
pub mod text;

pub use tables::{native_of, root_classes, root_members};
pub use text::prelude;
