//! What stands open at a place of a file.

/// One thing that stands open.
#[derive(Clone, Copy, Debug, PartialEq, Eq)]
pub enum Level {
    /// A text, begun by a double or a single quote; a raw one has no escapes and no interpolations.
    Text { double: bool, raw: bool },
    /// An interpolation `${`.
    Hole,
    /// A brace in an interpolation.
    Brace,
}
