//! The parser of files: imports, and what a library and its classes declare.
//!
//! - [`parse`]: the tree of a file's tokens.
//! - [`laws`]: what holds of the grammar of files, shown by its parser.
#![tactic(auto)]

mod bodies;
mod classes;
mod context;
mod files;
mod head;
mod imports;
pub mod laws;
mod members;
pub mod parse;

pub use parse::parse_file;
