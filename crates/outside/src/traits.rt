//! What a source, a sink and a gate are.
ghost use Rattle.std.specs.Prelude.{◌≡◌, ◌++◌, List, ℕ, OnOk, OnErr, IfSome, Option};
ghost use Rattle.outside.specs.Outside.{Held, HasCause, ReadCause, ReadTells, WithinLimit, Told, OthersStay, Puts, AddsFront};

use code_units::Bytes;
use std::alloc::Global;
use thiserror::Error;

/// What a read answers.
#[derive(Debug, Drop)]
pub enum Read {
    /// The first `limit` bytes of the file, or all where it has no more.
    Got(Bytes),
    /// No file of that name is held.
    Absent,
    /// The source failed, and its count of faults rose.
    Failed,
    /// Memory was wanting for the bytes.
    Memory,
}

/// Where files are read from.
pub trait Source {
    /// The files that it holds by name, where it tells.
    ghost files: { Self → Option Held };

    /// How often it has failed: a count that never falls.
    ghost faults: { Self → ℕ };

    /// The first `limit` bytes of the file of that name, or all of them. A read changes nothing that is held, and
    /// each answer but `Failed` leaves the count of faults as it was.
    fn read(&mut self, alloc: Global, name: &str, limit: u64) -> Read
        ensures unchanged { files self.new ≡ files self.old }
        ensures told { IfSome (files self.old) (λ held. ReadTells held name.now limit result) }
        ensures within { WithinLimit limit result }
        ensures cause { ReadCause (faults self.old) (faults self.new) result };
}

/// A call of a sink failed, and its count of faults rose.
#[derive(Clone, Copy, Debug, PartialEq, Eq, Error)]
#[error("the sink failed")]
pub struct SinkFailed;

/// Where files and text go. No call takes memory of the compiler.
pub trait Sink {
    /// The files by name, where it tells.
    ghost files: { Self → Option Held };

    /// The text said, where it tells.
    ghost said: { Self → Option (List ℕ) };

    /// How often it has failed: a count that never falls.
    ghost faults: { Self → ℕ };

    /// Makes the named file have exactly these bytes. After a refusal that file may hold anything. All else stays.
    fn put(&mut self, name: &str, bytes: &[u8]) -> Result<(), SinkFailed>
        ensures ok { OnOk result (Told (files self.old) (files self.new) (Puts name.now bytes.now)) }
        ensures err { OnErr result (Told (files self.old) (files self.new) (OthersStay name.now)) }
        ensures said { said self.new ≡ said self.old }
        ensures cause { HasCause (faults self.old) (faults self.new) result };

    /// Adds these bytes to the text said. After a refusal a front of them may have been added. All else stays.
    fn say(&mut self, bytes: &[u8]) -> Result<(), SinkFailed>
        ensures ok { OnOk result (Told (said self.old) (said self.new) (λ before now. now ≡ before ++ bytes.now)) }
        ensures err { OnErr result (Told (said self.old) (said self.new) (AddsFront bytes.now)) }
        ensures files { files self.new ≡ files self.old }
        ensures cause { HasCause (faults self.old) (faults self.new) result };
}

/// What a worker passes after each job that it took, before it works on it. A gate promises nothing.
pub trait Gate {
    /// The worker of that number arrives on the turn of that number; both are counted from 0.
    fn arrive(&self, worker: u32, turn: u32);
}

/// A gate that does nothing.
#[derive(Clone, Copy, Debug, PartialEq, Eq)]
pub struct NoGate;

impl Gate for NoGate {
    fn arrive(&self, _worker: u32, _turn: u32) {}
}
