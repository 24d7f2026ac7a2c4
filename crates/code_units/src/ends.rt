//! What a run has printed and how it ended.

use crate::lists::Lines;
use crate::text::Text;

/// What is shown of a thrown value that nothing caught.
#[derive(Debug, PartialEq, Eq, Drop)]
pub enum Shown {
    /// Null.
    Null,
    /// A truth value.
    Bool(bool),
    /// A whole number.
    Int(i64),
    /// A text.
    Str(Text),
    /// Anything else, by the name of its class.
    Class(Text),
}

/// How a run ended.
#[derive(Debug, PartialEq, Eq, Drop)]
pub enum End {
    /// Nothing was left to do.
    Done,
    /// A throw that nothing caught.
    Threw(Shown),
    /// All steps were taken and there was no other end.
    Spent,
    /// A result left the range of whole numbers.
    Left,
    /// Evaluations were nested too deep.
    Deep,
    /// No rule of the meaning says how to go on, at the offset `at` in bytes of the file of that number.
    Stuck { file: u32, at: u64 },
}

/// The texts that a run has printed, in order, and its end.
#[derive(Debug, Drop)]
pub struct RunEnd {
    pub output: Lines,
    pub end: End,
}
