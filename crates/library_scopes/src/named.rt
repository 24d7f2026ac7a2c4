//! What a name stands for.

/// What a name stands for in a library. The numbers count, each from 0 by files and declaration, the classes and aliases,
/// the members outside classes, and the prefixes of a program; a prefix that several imports of a file use is one.
#[derive(Clone, Copy, Debug, PartialEq, Eq)]
pub enum Named {
    Class(u32),
    Member(u32),
    Prefix(u32),
}

/// What is asked for under a name.
#[derive(Clone, Copy, Debug, PartialEq, Eq)]
pub enum Side {
    /// What the name stands for.
    Value,
    /// What takes a value that is assigned to the name.
    Setting,
}
