//! The tree that bytes spell, of the JavaScript subset.
//!
//! - [`bytes`]: classes and fronts of bytes.
//! - [`strings`], [`numbers`], [`names`], [`words`]: what tokens stand for.
//! - [`growing`]: lists that grow, and then take no more memory than they need.
//! - [`source`]: one token at a time.
//! - [`targets`]: what may be assigned to.
//! - [`grammar`]: the rules of the grammar.
//! - [`read`]: the tree of a file.
//! - [`fault`]: why bytes have no tree.
#![tactic(auto)]

mod bytes;
mod fault;
mod grammar;
mod growing;
mod names;
mod numbers;
mod read;
mod source;
mod strings;
mod targets;
mod words;

pub use fault::JsFault;
pub use read::{one_fault, one_token_list, one_tree, printed_is_read_back, read_file};
