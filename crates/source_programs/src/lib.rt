//! Programs that are read from the names and the texts of their files, all of which are given.
//!
//! - [`programs`]: the program of some files.
#![tactic(auto)]

pub mod programs;

pub use programs::{NoProgram, program, tree_of};
