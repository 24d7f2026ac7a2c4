//! Which classes each class of a program is a subtype of.
//!
//! - [`upward`]: an order of classes in which what a class names in its head stands before it.
//! - [`supertypes`]: for each class the set of those that it is a subtype of.
#![tactic(auto)]

mod climb;
pub mod supertypes;
#[cfg(test)]
mod tests;
pub mod upward;
