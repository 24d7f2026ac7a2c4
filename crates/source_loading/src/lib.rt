//! Loads the files of a program from a source: the entry, and then, file after file, what each imports.
//!
//! - [`programs`]: whole programs.
//! - [`loading`]: the files that are loaded so far, and the next one.
//! - [`asks`]: what the files ask for.
//! - [`numbers`]: the numbers of names.
//! - [`first`]: file 0.
//! - [`files`]: one file.
//! - [`reading`]: its bytes.
//! - [`texts`]: its tree.
#![tactic(auto)]

mod asks;
mod files;
mod first;
mod loading;
mod numbers;
pub mod programs;
mod reading;
mod texts;

pub use programs::{LoadFault, load};
