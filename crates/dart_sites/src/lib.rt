//! For each place in a file's tree where a rule can break or a name is looked up: what stands there, and what is around it.
//!
//! - [`lent`]: references that contracts see as what they refer to.
//! - [`scopes`]: the names that blocks, parameter lists, loops and clauses declare.
//! - [`finding`]: the declaration that a name has in the scopes around it.
//! - [`surroundings`]: what is around a place.
//! - [`sites`]: what stands at a place.
//! - [`locals`]: the names that statements and parameter lists declare.
//! - [`visitor`]: what is done at each place.
//! - [`visit_file`]: goes through all places of a file.
//! - [`visit_class`]: goes through all places of a class.
#![tactic(auto)]

mod asked;
mod chains;
mod expressions;
mod files;
pub mod finding;
mod functions;
mod knot;
pub mod lent;
pub mod locals;
mod place;
pub mod scopes;
pub mod sites;
mod statements;
pub mod surroundings;
mod tour;
pub mod visitor;
mod walker;

pub use files::{visit_class, visit_file};
pub use finding::find;
pub use sites::Site;
pub use surroundings::Surroundings;
pub use visitor::Visitor;
