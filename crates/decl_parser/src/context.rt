//! What the rules of files are given.

use std::alloc::Global;

/// What each rule is given. The rules are methods, so that each is proved by itself.
#[derive(Clone, Copy)]
pub struct Context {
    pub alloc: Global,
    /// How deep expressions, statements and parameters may nest; as many as there are tokens are enough.
    pub depth: usize,
    /// Whether bodies may be native.
    pub native: bool,
}
