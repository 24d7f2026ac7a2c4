//! Where files are read from, where files and text go, and a gate that workers pass.
//!
//! - [`traits`]: what a source, a sink and a gate are.
//! - [`memory`]: a source and a sink in memory, which tell all that they hold.
//! - [`disk`]: real files and standard output, of which no contract can tell the content.
#![tactic(auto)]

pub mod disk;
pub mod memory;
#[cfg(test)]
mod tests;
pub mod traits;

pub use disk::{DiskSink, DiskSource};
pub use memory::{MemSink, MemSource};
pub use traits::{Gate, NoGate, Read, Sink, SinkFailed, Source};
