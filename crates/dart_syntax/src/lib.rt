//! The syntax of the Dart profile: its tokens, and the rules that a program must keep.
//!
//! - [`words`]: the reserved words and the signs.
//! - [`tokens`]: the tokens of a file.
//! - [`levels`]: what stands open at a place of a file.
//! - [`rules`]: the rules, and how a program that breaks one is refused.
//! - [`laws`]: what holds of the tokens of a file and of the first rule that it breaks.
#![tactic(auto)]

pub mod laws;
pub mod levels;
pub mod rules;
#[cfg(test)]
mod tests;
pub mod tokens;
pub mod words;

pub use levels::Level;
pub use rules::{Refusal, Rule};
pub use tokens::{Form, Token, TokenList, Tokens};
pub use words::{Sign, Word};
