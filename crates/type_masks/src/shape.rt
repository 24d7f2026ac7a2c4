//! How large a world is.

/// How many members, shared slots and kinds there are.
#[derive(Clone, Copy, Debug, PartialEq, Eq)]
pub struct Shape {
    pub members: u32,
    pub slots: u32,
    pub kinds: u32,
}
