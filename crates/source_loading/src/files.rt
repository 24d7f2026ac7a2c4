//! One file: it is read, it is seen to be within the limits, and its tree is found.
ghost use Rattle.std.specs.Prelude.{◌≡◌, ◌≤◌};
ghost use Rattle.dart_program.specs.Loading.{most_in_all};
ghost use Rattle.source_loading.specs.Asking.{asked_of};
ghost use Rattle.source_loading.specs.Files.{Judges, FileTells, FileCause};

use crate::asks::AskedFile;
use crate::reading::{MOST_BYTES, read_named};
use crate::texts::{TextFault, tree_of};
use code_units::Text;
use dart_grammar::FileTree;
use dart_syntax::Rule;
use outside::{Read, Source};
use std::alloc::{AllocError, Global};

/// The most files besides the prelude.
pub const MOST_FILES: u32 = 256;

/// The most bytes of all files besides the prelude.
pub const MOST_IN_ALL: u64 = 4194304;

/// A file that breaks no rule.
#[derive(Drop)]
pub struct LoadedFile {
    pub name: Text,
    pub tree: FileTree,
    /// How many bytes it has.
    pub length: u64,
}

/// Why a file isn't loaded.
#[derive(Drop)]
pub enum FileFault {
    /// The first rule that it breaks, which is told of the place that asks for it.
    WhereAsked(Rule),
    /// The first rule that it breaks, the offset in bytes at which it does, and its name.
    Within { rule: Rule, at: u32, name: Text },
    /// The read of the file of that name failed.
    ReadFault { name: Text },
    /// Memory was wanting.
    Memory,
}

impl From<AllocError> for FileFault {
    ghost use Rattle.std.specs.Prelude.{◌≡◌};
    ghost use Rattle.source_loading.specs.declared.files.FileFault.TheVariants.{Memory};

    ghost from_gives = { λ _ fault. fault ≡ Memory };

    fn from(_: AllocError) -> FileFault {
        FileFault::Memory
    }
}

// The file of that number and name, which has these bytes. The files before it have so many bytes.
#[tactic(auto, using(crate::proofs::Within::breaks_long, crate::proofs::Within::breaks_full, crate::proofs::Within::breaks_text, crate::proofs::Within::judged_fine))]
fn judged(
    alloc: Global,
    number: u32,
    before: u64,
    name: Text,
    bytes: &[u8],
) -> Result<LoadedFile, FileFault>
    requires number { 1 ≤ number }
    requires room { before ≤ most_in_all }
    ensures { Judges number before name bytes.now result }
{
    let length = bytes.len() as u64;
    if number > MOST_FILES {
        return Err(FileFault::WhereAsked(Rule::N1));
    }
    if length > MOST_BYTES {
        let rule = Rule::N2;
        return Err(FileFault::Within { rule, at: 0, name });
    }
    if before + length > MOST_IN_ALL {
        let rule = Rule::N3;
        return Err(FileFault::Within { rule, at: 0, name });
    }
    match tree_of(alloc, number, bytes) {
        Ok(tree) => Ok(LoadedFile { name, tree, length }),
        Err(TextFault::Broken { rule, at }) => Err(FileFault::Within { rule, at, name }),
        Err(TextFault::Memory) => Err(FileFault::Memory),
    }
}

/// Loads what is asked for as the file of that number. The files before it have so many bytes.
#[tactic(auto, using(crate::proofs::Within::nameless_told, crate::proofs::Within::absent_told, crate::proofs::Within::got_told, crate::proofs::Within::judged_cause))]
pub fn load_file<S: Source>(
    alloc: Global,
    source: &mut S,
    number: u32,
    before: u64,
    asked: &AskedFile,
) -> Result<LoadedFile, FileFault>
    requires number { 1 ≤ number }
    requires room { before ≤ most_in_all }
    ensures unchanged { S.files source.new ≡ S.files source.old }
    ensures told { FileTells (S.files source.old) number before (asked_of asked.now) result }
    ensures cause { FileCause (S.faults source.old) (S.faults source.new) result }
{
    let Some(name) = &asked.name else {
        return Err(FileFault::WhereAsked(Rule::U1));
    };
    // Copied before the read, so that no want of memory hides a read that failed.
    let name = name.copy()?;
    match read_named(alloc, source, name.as_slice()) {
        Read::Got(bytes) => judged(alloc, number, before, name, bytes.as_slice()),
        Read::Absent => Err(FileFault::WhereAsked(Rule::U1)),
        Read::Failed => Err(FileFault::ReadFault { name }),
        Read::Memory => Err(FileFault::Memory),
    }
}
