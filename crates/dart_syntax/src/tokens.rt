//! The tokens of a file.

use crate::words::{Sign, Word};
use code_units::{ListOf, Text};

/// What a token is, with what it spells.
#[derive(Debug, Drop)]
pub enum Form {
    /// A name that is no reserved word.
    Name(Text),
    /// A reserved word.
    Word(Word),
    /// A whole number, at most 9007199254740991.
    Number(u64),
    /// A sign.
    Sign(Sign),
    /// The quote that begins a text, with the `r` of a raw one.
    TextOpen,
    /// The units of a text up to its end or its next interpolation; there may be none.
    Piece(Text),
    /// The `$` or `${` that begins an interpolation.
    Enter,
    /// The end of an interpolation: its `}`, or no byte behind a `$name`.
    Leave,
    /// The quote that ends a text.
    TextClose,
}

/// A token: its form and the bytes that it takes, from `from` up to, and without, `to`.
#[derive(Debug, Drop)]
pub struct Token {
    pub form: Form,
    pub from: u32,
    pub to: u32,
}

/// Tokens, one after another.
pub type TokenList = ListOf<Token>;

/// The tokens of a file of that number, which has `length` bytes.
#[derive(Debug, Drop)]
pub struct Tokens {
    pub file: u32,
    pub length: u32,
    pub items: TokenList,
}
