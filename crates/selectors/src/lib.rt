//! The names by which members of objects are looked for in a program, by numbers.
//!
//! - [`selector`]: such a name.
//! - [`numbers`]: names with their numbers, found by hashing.
//! - [`collecting`]: the names of a file, site by site.
//! - [`tables`]: the names of files, in order and by name.
//! - [`numbered`]: the names of a program.
//! - [`reading`]: the same, read from its files.
#![tactic(auto)]

pub mod collecting;
pub mod numbered;
pub mod numbers;
pub mod reading;
pub mod selector;
pub mod tables;

pub use numbered::Selectors;
pub use selector::Selector;
