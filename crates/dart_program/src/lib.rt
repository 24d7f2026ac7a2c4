//! Programs: files with their trees and links, what they declare, and the order in which rules are looked for.
//!
//! - [`files`]: the files of a program.
//! - [`paths`]: the file that an import names.
//! - [`first`]: the first of some refusals.
//! - [`laws`]: what holds of programs that are loaded.
#![tactic(auto)]

pub mod files;
pub mod first;
pub mod laws;
pub mod paths;
#[cfg(test)]
mod tests;

pub use dart_syntax::{Refusal, Rule};
pub use files::{FileList, Program, SourceFile};
