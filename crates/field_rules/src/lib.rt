//! The rule of fields: a constructor sets no name that is no field of its class, and no field twice.
//!
//! - [`fields`]: the fields of a class.
//! - [`settings`]: what a constructor sets before its body.
//! - [`search`]: the first place at which a file breaks the rule.
#![tactic(auto)]

pub mod fields;
pub mod search;
pub mod settings;

pub use search::first_in_file;
