//! The rule of super calls: the superclass has a constructor that takes each.
//!
//! - [`calls`]: the calls that a constructor makes.
//! - [`above`]: the constructors of a class, by name.
//! - [`search`]: the first call of a program that the superclass does not take.
#![tactic(auto)]

pub mod above;
pub mod calls;
pub mod search;

pub use search::first_in_program;
