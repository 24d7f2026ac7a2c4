//! The rule of names: what is no value stands in no value's place, a type test names a class, and what can only be called is
//! called.
//!
//! - [`uses`]: where a site breaks it.
//! - [`search`]: the first place at which a file breaks it.
#![tactic(auto)]

pub mod search;
pub mod uses;

pub use search::first_in_file;
