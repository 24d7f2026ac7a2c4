//! A source and a sink in memory. They tell all that they hold, and fail at the calls whose numbers a list has.
ghost use Rattle.std.specs.Prelude.{◌≡◌, ◌≢◌, ◌↔◌, ◌+◌, ◌-◌, ◌≤◌, ◌<◌, ◌++◌, [], ◌∷◌, length, Some, None, suc, take, drop, IsTrue, IsOk, IfOk, MatchOption, IsSome, IfSome, OnSome, IfNone, OnErr, OnOk, Contains, vec_len, vec_capacity};
ghost use Rattle.code_units.specs.Text.{units_of};
ghost use Rattle.outside.specs.InMemory.{held_in, one_more, LetsPut, LetsSay};
ghost use Rattle.outside.specs.Outside.{HasCause, Puts, OthersStay, AddsFront, ReadCause, ReadTells, WithinLimit};
ghost use Rattle.outside.specs.Places.{IsFirstOf};
ghost use Rattle.outside.specs.Room.{AreSmall, IsWide, Serve, room_at};
ghost use Rattle.outside.specs.declared.traits.Read.TheVariants.{Failed};

use crate::traits::{Read, Sink, SinkFailed, Source};
use code_units::text::push_units;
use code_units::{Bytes, Files, NamedFile, NumberList, Text};
use std::alloc::{AllocError, Global};
use std::marker::Model;

/// A source in memory.
#[derive(Debug, Drop)]
pub struct MemSource {
    files: Files,
    failing: NumberList,
    calls: u64,
    faults: u64,
}

impl Model for MemSource {
    ghost use Rattle.outside.specs.InMemory.{MemorySource};

    ghost Value = { MemorySource };

    ghost view = { λ s. record { files = s.files; failing = s.failing; calls = s.calls; faults = s.faults } };
}

impl MemSource {
    /// A source of these files, whose names differ. The calls whose numbers are in `failing` fail; they are counted
    /// from 1.
    pub fn new(files: Files, failing: NumberList) -> MemSource
        ensures { result ≡ record { files = files; failing = failing; calls = 0; faults = 0 } }
    {
        MemSource {
            files,
            failing,
            calls: 0,
            faults: 0,
        }
    }
}

impl Source for MemSource {
    ghost files = { λ s. Some (held_in s.files) };

    ghost faults = { λ s. s.faults };

    fn read(&mut self, alloc: Global, name: &str, limit: u64) -> Read
        ensures unchanged { self.new ≡ record self.old { calls = one_more self.old.calls; faults = self.new.faults } }
        ensures told { ReadTells (held_in self.old.files) name.now limit result }
        ensures within { WithinLimit limit result }
        ensures cause { ReadCause self.old.faults self.new.faults result }
        ensures fails { (result ≡ Failed) ↔ Contains self.old.failing (one_more self.old.calls) }
    {
        self.calls = self.calls.saturating_add(1);
        if is_listed(&self.failing, self.calls) {
            self.faults = self.faults.saturating_add(1);
            return Read::Failed;
        }
        find(alloc, self.files.as_slice(), name, limit)
    }
}

// Whether the list has the number of the call.
fn is_listed(failing: &NumberList, call: u64) -> bool
    ensures { IsTrue result ↔ Contains failing.now call }
{
    failing
        .as_slice()
        .iter()
        .any(|number| u64::from(*number) == call)
}

// The place of the first file of that name.
fn place_of(files: &[NamedFile], name: &str) -> Option<usize>
    ensures { MatchOption result (held_in files.now name.now ≡ None) (λ i. (i < length files.now) × IsFirstOf files.now name.now i) }
{
    for (i, file) in files.iter().enumerate() {
        if file.name.is(name) {
            return Some(i);
        }
    }
    None
}

// The first `limit` bytes of the file of that name, or all of them.
fn find(alloc: Global, files: &[NamedFile], name: &str, limit: u64) -> Read
    ensures told { ReadTells (held_in files.now) name.now limit result }
    ensures within { WithinLimit limit result }
    ensures answers { result ≢ Failed }
{
    match place_of(files, name) {
        None => Read::Absent,
        Some(i) => match front(alloc, files[i].bytes.as_slice(), limit) {
            Ok(bytes) => Read::Got(bytes),
            Err(_) => Read::Memory,
        },
    }
}

// The first `limit` bytes, or all of them.
fn front(alloc: Global, bytes: &[u8], limit: u64) -> Result<Bytes, AllocError>
    ensures { IfOk result (λ made. made ≡ take limit bytes.now) }
{
    let count = bytes.len().min(limit as usize);
    Bytes::from_slice(alloc, &bytes[..count])
}

// Room for a name and a content of `room` bytes each.
#[derive(Debug, Drop)]
struct Spare {
    room: usize,
    name: Vec<u16>,
    bytes: Vec<u8>,
}

/// A sink in memory.
///
/// It takes all its memory when it is made. The k-th of its spare files, counted from 1, holds the k-th part of the
/// bytes, and a put takes the smallest one that is large enough: so each put within the room finds one.
#[derive(Debug, Drop)]
pub struct MemSink {
    alloc: Global,
    files: Vec<NamedFile>,
    said: Vec<u8>,
    spares: Vec<Spare>,
    room: usize,
    failing: NumberList,
    calls: u64,
    faults: u64,
}

impl Model for MemSink {
    ghost use Rattle.std.specs.Prelude.{length, vec_len, vec_capacity};
    ghost use Rattle.outside.specs.InMemory.{MemorySink};
    ghost use Rattle.outside.specs.Room.{KeepsRoom};

    ghost Value = { MemorySink };

    ghost view = { λ s. record { files = s.files.items; said = s.said.items; puts = vec_len s.spares; room = s.room; failing = s.failing; calls = s.calls; faults = s.faults } };

    ghost invariant = { λ s. KeepsRoom s.room (vec_len s.said) (vec_capacity s.said) (vec_len s.files) (vec_capacity s.files) s.spares.items };
}

impl MemSink {
    /// A sink that holds these files, whose names differ, and has said nothing. It has room for so many puts, and for
    /// so many bytes of names, files and said text over all its calls; a call that fails takes no room. The calls
    /// whose numbers are in `failing` fail; puts and says are counted together from 1. Where memory is wanting the
    /// arguments are dropped.
    pub fn new(
        alloc: Global,
        files: Files,
        puts: u32,
        bytes: u64,
        failing: NumberList,
    ) -> Result<MemSink, AllocError>
        ensures { IfOk result (λ sink. sink ≡ record { files = files; said = []; puts = puts; room = bytes; failing = failing; calls = 0; faults = 0 }) }
    {
        let room = bytes as usize;
        let mut files = files.into_vec();
        files.reserve(puts as usize)?;
        let said = Vec::with_capacity(alloc, room)?;
        let spares = spare_files(alloc, puts, room)?;
        Ok(MemSink {
            alloc,
            files,
            said,
            spares,
            room,
            failing,
            calls: 0,
            faults: 0,
        })
    }

    /// The files that it holds, in the order in which their names were first put, behind those that it was made with.
    pub fn files(&self) -> &[NamedFile]
        ensures { result.now ≡ self.now.files }
    {
        self.files.as_slice()
    }

    /// The text said.
    pub fn said(&self) -> &[u8]
        ensures { result.now ≡ self.now.said }
    {
        self.said.as_slice()
    }

    /// The files that it holds.
    pub fn into_files(self) -> Files
        ensures { result ≡ self.files }
    {
        let MemSink { files, .. } = self;
        Files::from_vec(files)
    }
}

impl Sink for MemSink {
    ghost files = { λ s. Some (held_in s.files) };

    ghost said = { λ s. Some s.said };

    ghost faults = { λ s. s.faults };

    fn put(&mut self, name: &str, bytes: &[u8]) -> Result<(), SinkFailed>
        ensures succeeds { IsOk result ↔ LetsPut self.old name.now bytes.now }
        ensures ok { OnOk result (Puts name.now bytes.now (held_in self.old.files) (held_in self.new.files)) }
        ensures taken { OnOk result (self.new ≡ record self.old { files = self.new.files; puts = self.old.puts - 1; room = self.old.room - (length name.now + length bytes.now); calls = one_more self.old.calls }) }
        ensures err { OnErr result (self.new ≡ record self.old { calls = one_more self.old.calls; faults = one_more self.old.faults }) }
        ensures cause { HasCause self.old.faults self.new.faults result }
    {
        self.calls = self.calls.saturating_add(1);
        let size = name.len() + bytes.len();
        if size > self.room || is_listed(&self.failing, self.calls) {
            self.faults = self.faults.saturating_add(1);
            return Err(SinkFailed);
        }
        let Some(spare) = take_spare(&mut self.spares, &mut self.room, size) else {
            self.faults = self.faults.saturating_add(1);
            return Err(SinkFailed);
        };
        let file = filled(self.alloc, spare, name, bytes);
        store(&mut self.files, file, name);
        Ok(())
    }

    fn say(&mut self, bytes: &[u8]) -> Result<(), SinkFailed>
        ensures succeeds { IsOk result ↔ LetsSay self.old bytes.now }
        ensures ok { OnOk result (self.new ≡ record self.old { said = self.old.said ++ bytes.now; room = self.old.room - length bytes.now; calls = one_more self.old.calls }) }
        ensures err { OnErr result (self.new ≡ record self.old { calls = one_more self.old.calls; faults = one_more self.old.faults }) }
        ensures cause { HasCause self.old.faults self.new.faults result }
    {
        self.calls = self.calls.saturating_add(1);
        if bytes.len() > self.room || is_listed(&self.failing, self.calls) {
            self.faults = self.faults.saturating_add(1);
            return Err(SinkFailed);
        }
        self.room -= bytes.len();
        extend_within(&mut self.said, bytes);
        Ok(())
    }
}

// So many spare files, which hold so many bytes, half of them, a third of them, and so on.
fn spare_files(alloc: Global, count: u32, room: usize) -> Result<Vec<Spare>, AllocError>
    ensures len { IfOk result (λ spares. vec_len spares ≡ count) }
    ensures serve { IfOk result (λ spares. Serve room 0 spares.items) }
{
    let mut spares = Vec::with_capacity(alloc, count as usize)?;
    while spares.len() < count as usize {
        let part = room / (spares.len() + 1);
        let spare = spare_file(alloc, part)?;
        spares.push(spare)?;
    }
    Ok(spares)
}

fn spare_file(alloc: Global, room: usize) -> Result<Spare, AllocError>
    ensures { IfOk result (λ spare. IsWide spare × (spare.room ≡ room)) }
{
    let name = Vec::with_capacity(alloc, room)?;
    let bytes = Vec::with_capacity(alloc, room)?;
    Ok(Spare { room, name, bytes })
}

// The place of the last spare file that holds so many bytes.
fn last_wide(spares: &[Spare], size: usize) -> Option<usize>
    ensures { MatchOption result (AreSmall size spares.now) (λ i. (i < length spares.now) × (size ≤ room_at spares.now i) × AreSmall size (drop (suc i) spares.now)) }
{
    let mut i = spares.len();
    while i > 0 {
        i -= 1;
        if size <= spares[i].room {
            return Some(i);
        }
    }
    None
}

// Takes so many bytes of the room, and a spare file that holds them.
fn take_spare(spares: &mut Vec<Spare>, room: &mut usize, size: usize) -> Option<Spare>
    requires within { size ≤ room.old }
    requires serve { Serve room.old 0 spares.old.items }
    ensures found { IsSome result ↔ (0 < vec_len spares.old) }
    ensures wide { IfSome result (λ spare. (size ≤ vec_capacity spare.name) × (size ≤ vec_capacity spare.bytes)) }
    ensures serve { OnSome result (Serve room.new 0 spares.new.items) }
    ensures len { OnSome result (vec_len spares.new + 1 ≡ vec_len spares.old) }
    ensures room { OnSome result (room.new + size ≡ room.old) }
    ensures unchanged { IfNone result ((spares.new ≡ spares.old) × (room.new ≡ room.old)) }
{
    match last_wide(spares.as_slice(), size) {
        Some(i) => {
            *room -= size;
            Some(spares.remove(i))
        }
        None => None,
    }
}

// The file of this name and these bytes, in the room of a spare one.
fn filled(alloc: Global, spare: Spare, name: &str, bytes: &[u8]) -> NamedFile
    requires name { length name.now ≤ vec_capacity spare.name }
    requires bytes { length bytes.now ≤ vec_capacity spare.bytes }
    ensures name { result.name ≡ units_of name.now }
    ensures bytes { result.bytes ≡ bytes.now }
{
    let Spare {
        name: mut units,
        bytes: mut content,
        ..
    } = spare;
    units.clear();
    let _ = push_units(&mut units, name);
    content.clear();
    let _ = content.extend_from_slice(bytes);
    NamedFile {
        name: Text::from_vec(alloc, units),
        bytes: Bytes::from_vec(content),
    }
}

// Puts the file of that name in the place of the one that has it, or behind all others.
fn store(files: &mut Vec<NamedFile>, file: NamedFile, name: &str)
    requires named { file.name ≡ units_of name.now }
    requires room { vec_len files.old < vec_capacity files.old }
    ensures puts { Puts name.now file.bytes (held_in files.old.items) (held_in files.new.items) }
    ensures len { vec_len files.new ≤ vec_len files.old + 1 }
    ensures capacity { vec_capacity files.old ≤ vec_capacity files.new }
{
    match place_of(files.as_slice(), name) {
        Some(i) => files[i] = file,
        None => push_within(files, file),
    }
}

// Adds bytes behind all others where there is room for them.
fn extend_within(said: &mut Vec<u8>, bytes: &[u8])
    requires { vec_len said.old + length bytes.now ≤ vec_capacity said.old }
    ensures items { said.new.items ≡ said.old.items ++ bytes.now }
    ensures len { vec_len said.new ≡ vec_len said.old + length bytes.now }
    ensures capacity { vec_capacity said.old ≤ vec_capacity said.new }
{
    let _ = said.extend_from_slice(bytes);
}

// Adds a file behind all others where there is room for it.
fn push_within(files: &mut Vec<NamedFile>, file: NamedFile)
    requires { vec_len files.old < vec_capacity files.old }
    ensures items { files.new.items ≡ files.old.items ++ file ∷ [] }
    ensures len { vec_len files.new ≡ vec_len files.old + 1 }
    ensures capacity { vec_capacity files.old ≤ vec_capacity files.new }
{
    let _ = files.push(file);
}
