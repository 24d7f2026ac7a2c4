//! The program of some files.
ghost use Rattle.std.specs.Prelude.{◌≡◌};
ghost use Rattle.source_programs.specs.Linked as spec;

use code_units::{Files, NamedFile, NumberList, Text};
use core_prelude::prelude;
use dart_grammar::FileTree;
use dart_grammar::declarations::Import;
use dart_program::paths::{is_core, named_from};
use dart_program::{FileList, Program, SourceFile};
use dart_tokens::scan;
use decl_parser::parse_file;
use std::alloc::{AllocError, Global};
use thiserror::Error;

/// Why files are no program.
#[derive(Clone, Copy, Debug, Drop, PartialEq, Eq, Error)]
pub enum NoProgram {
    /// No tree derives this file.
    #[error("file {0} is none of the language")]
    BadFile(u32),
    /// An import means none of the files, or there is none.
    #[error("an import means none of the files")]
    NoFile,
    /// Memory was wanting.
    #[error("out of memory")]
    Memory,
}

impl From<AllocError> for NoProgram {
    ghost use Rattle.std.specs.Prelude.{◌≡◌};
    ghost use Rattle.source_programs.specs.declared.programs.NoProgram.TheVariants.{Memory};

    ghost from_gives = { λ _ error. error ≡ Memory };

    fn from(_: AllocError) -> NoProgram {
        NoProgram::Memory
    }
}

fn are_below(count: usize, links: &[u32]) -> bool
    ensures { result ≡ spec.are_below count links.now }
{
    links.iter().all(|link| (*link as usize) < count)
}

fn is_linked(count: usize, file: &SourceFile) -> bool
    ensures { result ≡ spec.is_linked count file.now }
{
    file.links.len() == file.tree.imports.len() as u64 && are_below(count, file.links.as_slice())
}

fn are_linked(count: usize, files: &[SourceFile]) -> bool
    ensures { result ≡ spec.are_linked count files.now }
{
    files.iter().all(|file| is_linked(count, file))
}

fn is_program(files: &[SourceFile]) -> bool
    ensures { result ≡ spec.is_program files.now }
{
    files.len() > 1 && are_linked(files.len(), files)
}

/// The tree of the file of this number, which has these bytes.
pub fn tree_of(alloc: Global, number: u32, bytes: &[u8]) -> Result<FileTree, NoProgram> {
    if bytes.len() > 100_000_000 {
        return Err(NoProgram::BadFile(number));
    }
    let tokens = match scan(alloc, number, bytes) {
        Ok(tokens) => tokens,
        Err(_) => return Err(NoProgram::BadFile(number)),
    };
    match parse_file(alloc, &tokens) {
        Ok(tree) => Ok(tree),
        Err(_) => Err(NoProgram::BadFile(number)),
    }
}

/// The number of the first file of this name.
fn number_of(files: &[NamedFile], name: &Text) -> Option<u32> {
    let mut number: u32 = 1;
    for file in files {
        if file.name == *name {
            return Some(number);
        }
        number = number.checked_add(1)?;
    }
    None
}

/// The number of the file that an import of the file of this name means.
fn link_of(
    alloc: Global,
    files: &[NamedFile],
    name: &Text,
    import: &Import,
) -> Result<u32, NoProgram> {
    if is_core(&import.uri) {
        return Ok(0);
    }
    match named_from(alloc, name, &import.uri)? {
        Some(name) => number_of(files, &name).ok_or(NoProgram::NoFile),
        None => Err(NoProgram::NoFile),
    }
}

fn links_of(
    alloc: Global,
    files: &[NamedFile],
    name: &Text,
    imports: &[Import],
) -> Result<NumberList, NoProgram> {
    let mut links = NumberList::new(alloc);
    for import in imports {
        links.push(link_of(alloc, files, name, import)?)?;
    }
    Ok(links)
}

fn source_file(
    alloc: Global,
    number: u32,
    files: &[NamedFile],
    file: &NamedFile,
) -> Result<SourceFile, NoProgram> {
    let tree = tree_of(alloc, number, file.bytes.as_slice())?;
    let links = links_of(alloc, files, &file.name, tree.imports.as_slice())?;
    Ok(SourceFile {
        name: Text::from_slice(alloc, file.name.as_slice())?,
        tree,
        links,
    })
}

fn prelude_file(alloc: Global) -> Result<SourceFile, NoProgram> {
    let tree = tree_of(alloc, 0, prelude().as_bytes())?;
    Ok(SourceFile {
        name: Text::from_str(alloc, "dart:core")?,
        tree,
        links: NumberList::new(alloc),
    })
}

fn source_files(alloc: Global, files: &[NamedFile]) -> Result<FileList, NoProgram> {
    let mut all = FileList::new(alloc);
    all.push(prelude_file(alloc)?)?;
    let mut number: u32 = 1;
    for file in files {
        all.push(source_file(alloc, number, files, file)?)?;
        number = number.checked_add(1).ok_or(NoProgram::Memory)?;
    }
    Ok(all)
}

/// The program of the prelude and these files, which are numbered as they stand; the first is the entry.
#[tactic(auto, using(crate::proofs::Linked::program_told))]
pub fn program(alloc: Global, files: &Files) -> Result<Program, NoProgram> {
    let files = source_files(alloc, files.as_slice())?;
    if is_program(files.as_slice()) {
        Ok(Program::new(files))
    } else {
        Err(NoProgram::NoFile)
    }
}
