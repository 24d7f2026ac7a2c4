//! Facts about members and shared slots, worlds of facts that grow, and snapshots that do not.
#![tactic(auto)]

mod fact;
mod impact;
mod masks;
mod page;
mod page_table;
mod reads;
mod snapshot;
mod world;

pub use fact::{Fact, FactList};
pub use impact::Impact;
pub use reads::{ReadList, SlotRead};
pub use snapshot::Snapshot;
pub use world::World;

#[cfg(test)]
mod tests;
