//! What names mean where they stand: alone, and behind a dot.
//!
//! - [`own`]: what a class declares itself.
//! - [`tables`]: the same for all classes, found by name.
//! - [`around`]: what is around a place.
//! - [`imports`]: what imports give under a name.
//! - [`meaning`]: what a name can mean.
//! - [`meanings`]: what names mean in a program.
#![tactic(auto)]

pub mod around;
pub mod imports;
pub mod meaning;
pub mod meanings;
pub mod own;
pub mod tables;

pub use meaning::{Meaning, NameMeaning};
pub use meanings::Meanings;
