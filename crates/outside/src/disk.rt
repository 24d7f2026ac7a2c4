//! Real files and standard output: the trusted edge. No contract can tell what they hold; each error is counted.
ghost use Rattle.std.specs.Prelude.{◌≡◌, ◌≤◌, length, None, IfOk};
ghost use Rattle.outside.specs.Outside.{HasCause};
ghost use Rattle.outside.specs.declared.disk.ReadError.TheVariants.{Memory};

use crate::traits::{Read, Sink, SinkFailed, Source};
use code_units::Bytes;
use std::alloc::{AllocError, Global};
use std::rt::Files;
use std::{fs, io};

/// The files of the machine.
#[derive(Drop)]
pub struct DiskSource<'a, R> {
    rt: &'a R,
    faults: u64,
}

impl<'a, R> DiskSource<'a, R> {
    /// The files of the machine, with no fault so far.
    pub fn new(rt: &'a R) -> DiskSource<'a, R>
        ensures { result.faults ≡ 0 }
    {
        DiskSource { rt, faults: 0 }
    }
}

impl<R: Files> Source for DiskSource<'_, R> {
    ghost files = { λ _. None };

    ghost faults = { λ s. s.faults };

    fn read(&mut self, alloc: Global, name: &str, limit: u64) -> Read {
        let answer = match fs::open(self.rt, name) {
            Ok(file) => {
                let mut file = file;
                read_front(alloc, &mut file, limit)
            }
            Err(e) if e.kind() == io::ErrorKind::NotFound => return Read::Absent,
            Err(_) => Err(ReadError::Failed),
        };
        match answer {
            Ok(bytes) => Read::Got(bytes),
            Err(ReadError::Memory) => Read::Memory,
            Err(ReadError::Failed) => {
                self.faults = self.faults.saturating_add(1);
                Read::Failed
            }
        }
    }
}

// Why a file that is there was not read.
#[derive(Debug, Drop)]
enum ReadError {
    Failed,
    Memory,
}

impl From<AllocError> for ReadError {
    ghost from_gives = { λ _ e. e ≡ Memory };

    fn from(_: AllocError) -> ReadError {
        ReadError::Memory
    }
}

// The first `limit` bytes of what is left. A read that gives nothing is the end.
fn read_front<F: io::Read>(alloc: Global, file: &mut F, limit: u64) -> Result<Bytes, ReadError>
    ensures { IfOk result (λ bytes. length bytes ≤ limit) }
{
    let mut bytes = Bytes::new(alloc);
    let mut piece = [0u8; 16384];
    let mut left = limit;
    while left > 0 {
        let room = left.min(16384) as usize;
        match file.read(&mut piece[..room]) {
            Ok(0) => break,
            Ok(count) => {
                bytes.extend(&piece[..count])?;
                left -= count as u64;
            }
            Err(_) => return Err(ReadError::Failed),
        }
    }
    Ok(bytes)
}

/// The files of the machine, and standard output.
#[derive(Drop)]
pub struct DiskSink<'a, R> {
    rt: &'a R,
    faults: u64,
}

impl<'a, R> DiskSink<'a, R> {
    /// The files of the machine and standard output, with no fault so far.
    pub fn new(rt: &'a R) -> DiskSink<'a, R>
        ensures { result.faults ≡ 0 }
    {
        DiskSink { rt, faults: 0 }
    }

    // Counts a fault where the call failed.
    fn counted(&mut self, answer: Result<(), SinkFailed>) -> Result<(), SinkFailed>
        ensures same { result ≡ answer }
        ensures cause { HasCause self.old.faults self.new.faults result }
    {
        if answer.is_err() {
            self.faults = self.faults.saturating_add(1);
        }
        answer
    }
}

impl<R: Files + Print> Sink for DiskSink<'_, R> {
    ghost files = { λ _. None };

    ghost said = { λ _. None };

    ghost faults = { λ s. s.faults };

    fn put(&mut self, name: &str, bytes: &[u8]) -> Result<(), SinkFailed> {
        let answer = put_file(self.rt, name, bytes);
        self.counted(answer)
    }

    fn say(&mut self, bytes: &[u8]) -> Result<(), SinkFailed> {
        let mut writer = io::writer(self.rt);
        let answer = write_whole(&mut writer, bytes);
        self.counted(answer)
    }
}

fn put_file<R: Files>(rt: &R, name: &str, bytes: &[u8]) -> Result<(), SinkFailed> {
    match fs::create(rt, name) {
        Ok(file) => {
            let mut file = file;
            write_whole(&mut file, bytes)
        }
        Err(_) => Err(SinkFailed),
    }
}

// Writes all the bytes. A write that takes nothing of a piece that isn't empty is an error.
fn write_whole<W: io::Write>(writer: &mut W, bytes: &[u8]) -> Result<(), SinkFailed> {
    let mut rest = bytes;
    while !rest.is_empty() {
        match writer.write(rest) {
            Ok(0) => return Err(SinkFailed),
            Ok(count) => rest = &rest[count..],
            Err(_) => return Err(SinkFailed),
        }
    }
    writer.flush().map_err(|_| SinkFailed)
}
