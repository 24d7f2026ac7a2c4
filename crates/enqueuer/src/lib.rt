//! Workers that close a world over one desk.
#![tactic(auto)]

mod alone;
mod compare;
mod workers;

pub use alone::close_world_alone;
pub use workers::close_world;

#[cfg(test)]
mod tests;
