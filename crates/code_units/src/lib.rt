//! Texts, bytes and lists that contracts see as lists, and how a run ends.
//!
//! - [`text`]: a text as its UTF-16 units, read from UTF-8 and written as UTF-8.
//! - [`bytes`]: bytes that grow.
//! - [`lists`]: lists of texts, numbers, files and words.
//! - [`ends`]: what a run has printed and how it ended.
//! - [`laws`]: what holds between UTF-8 bytes and units.
#![tactic(auto)]

pub mod bytes;
mod compared;
pub mod ends;
pub mod laws;
pub mod lists;
#[cfg(test)]
mod tests;
pub mod text;

pub use bytes::Bytes;
pub use ends::{End, RunEnd, Shown};
pub use lists::{Files, Lines, ListOf, NamedFile, NumberList, Words};
pub use text::{Text, TextError};
