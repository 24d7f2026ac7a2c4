//! The member that each class has under each name.
//!
//! - [`keys`]: the numbers of the names under which a member is found.
//! - [`bodies`]: the same, of a member where it is declared.
//! - [`filling`]: members put into the table of a class.
//! - [`origins`]: whose body each class has.
//! - [`tables`]: the tables of all classes.
#![tactic(auto)]

mod bodies;
mod filling;
mod keys;
mod origins;
mod tables;

pub use tables::MemberTables;
