//! The members of a program by their numbers, and whose they are.
//!
//! - [`program`]: a program with its classes.
//! - [`constructions`]: the constructors of a class.
//! - [`members`]: all members of a program.
//! - [`owners`]: which members each class has, and which stand outside classes.
#![tactic(auto)]

pub mod constructions;
pub mod members;
pub mod owners;
pub mod program;
