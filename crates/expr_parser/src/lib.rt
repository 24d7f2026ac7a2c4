//! The parser of expressions and statements.
//!
//! - [`parse`]: expressions of a file.
//! - [`parts`], [`types`], [`cursor`]: the parts of which declarations are made, for the parser of files.
//! - [`laws`]: what holds of the grammar, shown by its parser.
//! - [`SyntaxFault`]: why the tokens of a file are not parsed; [`Fault`]: why a rule answers no tree.
//!
//! Parsers go down one call for each level that nests. Chains of operators and selectors, lists and texts one behind
//! another are loops.
#![tactic(auto)]

mod blocks;
mod chains;
pub mod cursor;
mod fault;
mod grammar;
mod knot;
pub mod laws;
mod lists;
mod operators;
mod parameters;
pub mod parse;
pub mod parts;
mod statements;
mod texts;
pub mod types;

pub use fault::{Fault, SyntaxFault};
pub use parse::parse_expression;
