//! The trees of the JavaScript subset, and how they are spelled.
//!
//! - [`laws`]: what holds of spellings.
//! - [`tree`]: files, statements and expressions.
//! - [`words`]: the words and signs of the grammar.
//! - [`print_file`]: the canonical spelling of a tree.
#![tactic(auto)]

pub mod laws;
mod print;
pub mod tree;
pub mod words;

pub use print::print_file;
pub use tree::{
    JsEntry, JsExpr, JsFile, JsFunction, JsHead, JsItem, JsItems, JsPrimary, JsSelector, JsStmt,
    NamedTree, TreeList,
};
pub use words::{JsMember, JsOperator};
