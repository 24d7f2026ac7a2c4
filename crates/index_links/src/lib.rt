//! Lists of nodes that are linked by index: every call takes constant time, and only `Links::new` takes memory.
#![tactic(auto)]

mod links;

pub use links::Links;

#[cfg(test)]
mod tests;
