//! Maps from small numbers to numbers. A change makes a new map, which shares all but a few nodes with the old one, and
//! the old one stays as it is.
#![tactic(auto)]

mod maps;
mod nodes;

pub use maps::{Map, Maps};

#[cfg(test)]
mod tests;
