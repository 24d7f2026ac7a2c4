//! The files that are loaded so far, and the next one.
ghost use Rattle.std.specs.Prelude.{◌≡◌, ◌≤◌, ◌<◌, ◌+◌, ◌++◌, ◌∷◌, [], suc, length, map, flat_map, IfOk, OnOk};
ghost use Rattle.std.specs.Option.{option_copied};
ghost use Rattle.dart_program.specs.Loading.{asked_first, asked_by, most_files, most_in_all};
ghost use Rattle.source_loading.specs.Asking.{asked_of, with_all};
ghost use Rattle.source_loading.specs.Tells.{LoadCause};
ghost use Rattle.source_loading.specs.Progress as spec;
ghost use Rattle.source_loading.specs.Progress.{IsToldAs, IsLoading, NextTells, AllTells, linked};

use crate::asks::{AskedFile, Asks, entry_asks};
use crate::files::{FileFault, LoadedFile, load_file};
use crate::programs::LoadFault;
use code_units::Text;
use dart_program::{FileList, SourceFile};
use dart_syntax::Refusal;
use outside::Source;
use std::alloc::{AllocError, Global};

/// The files that are loaded so far, and what they ask for.
#[derive(Drop)]
pub struct Loading {
    /// From file 1 on, by number.
    pub files: Vec<LoadedFile>,
    pub asks: Asks,
    /// How many bytes the files have.
    pub size: u64,
}

impl Loading {
    // No file: the entry is asked for.
    fn new(alloc: Global, entry: &Text) -> Result<Loading, AllocError>
        ensures { IfOk result (λ loading. (loading.files.items ≡ []) × (loading.asks ≡ asked_first entry.now ∷ []) × (loading.size ≡ 0)) }
    {
        Ok(Loading {
            files: Vec::new(alloc),
            asks: entry_asks(alloc, entry)?,
            size: 0,
        })
    }

    // The number of the next file.
    fn number(&self) -> u32
        requires { length self.now.files.items ≤ most_files }
        ensures { result ≡ suc (length self.now.files.items) }
    {
        self.files.len() as u32 + 1
    }

    // The file of this number, which is loaded or isn't.
    #[tactic(auto, using(crate::proofs::Naming::file_of_next, crate::proofs::Naming::no_file))]
    fn file(&self, number: u32) -> Option<&LoadedFile>
        ensures { option_copied result ≡ spec.file_of self.now.files.items number }
    {
        let i = number.checked_sub(1)?;
        self.files.get(i as usize)
    }

    // The name of the file that asks for this. The entry asks for itself.
    fn asker_name(&self, asked: &AskedFile, entry: &Text) -> Result<Text, AllocError>
        ensures { IfOk result (λ name. name ≡ spec.asker_name self.now.files.items entry.now (asked_of asked.now)) }
    {
        match self.file(asked.file) {
            Some(file) => file.name.copy(),
            None => own_name(asked, entry),
        }
    }

    // Adds a file, and asks for what it imports.
    fn push(&mut self, alloc: Global, file: LoadedFile) -> Result<(), AllocError>
        requires few { length self.old.files.items ≤ most_files }
        requires room { self.old.size + file.length ≤ most_in_all }
        ensures files { OnOk result (self.new.files.items ≡ self.old.files.items ++ file ∷ []) }
        ensures size { OnOk result (self.new.size ≡ self.old.size + file.length) }
        ensures asks { OnOk result (self.new.asks ≡ with_all self.old.asks (flat_map (asked_by (suc (length self.old.files.items)) file.name) file.tree.imports)) }
    {
        let number = self.number();
        self.asks
            .ask_imports(alloc, number, &file.name, file.tree.imports.as_slice())?;
        self.size += file.length;
        self.files.push(file)?;
        Ok(())
    }

    /// The files of the program, behind this prelude, with the links of each.
    pub fn into_files(self, alloc: Global, prelude: SourceFile) -> Result<FileList, AllocError>
        requires { length self.asks ≤ most_files }
        ensures { IfOk result (λ files. files ≡ prelude ∷ map (linked self.asks) self.files.items) }
    {
        let Loading {
            files: loaded,
            asks,
            ..
        } = self;
        let mut files = FileList::new(alloc);
        files.push(prelude)?;
        for file in loaded {
            let links = asks.links(alloc, &file.name, file.tree.imports.as_slice())?;
            let LoadedFile { name, tree, .. } = file;
            files.push(SourceFile { name, tree, links })?;
        }
        Ok(files)
    }
}

// The name of the entry, which goes by its word where it has none.
fn own_name(asked: &AskedFile, entry: &Text) -> Result<Text, AllocError>
    ensures { IfOk result (λ name. name ≡ spec.own_name asked.now.name entry.now) }
{
    match &asked.name {
        Some(name) => name.copy(),
        None => entry.copy(),
    }
}

// Why no more is loaded, where what is asked for next isn't.
fn fault_of(loading: &Loading, entry: &Text, asked: &AskedFile, fault: FileFault) -> LoadFault
    requires { length loading.now.files.items ≤ most_files }
    ensures { IsToldAs loading.now.files.items entry.now (asked_of asked.now) fault result }
{
    match fault {
        FileFault::WhereAsked(rule) => match loading.asker_name(asked, entry) {
            Ok(name) => LoadFault::Refused {
                refusal: Refusal {
                    rule,
                    file: asked.file,
                    at: asked.at,
                },
                name,
            },
            Err(_) => LoadFault::Memory,
        },
        FileFault::Within { rule, at, name } => LoadFault::Refused {
            refusal: Refusal {
                rule,
                file: loading.number(),
                at,
            },
            name,
        },
        FileFault::ReadFault { name } => LoadFault::ReadFault { name },
        FileFault::Memory => LoadFault::Memory,
    }
}

// The next file, if one is asked for.
fn load_next<S: Source>(
    alloc: Global,
    source: &mut S,
    entry: &Text,
    loading: &Loading,
) -> Result<Option<LoadedFile>, LoadFault>
    requires { IsLoading (S.files source.old) entry.now loading.now }
    ensures unchanged { S.files source.new ≡ S.files source.old }
    ensures told { NextTells (S.files source.old) entry.now loading.now result }
    ensures cause { LoadCause (S.faults source.old) (S.faults source.new) result }
{
    let Some(asked) = loading.asks.get(loading.files.len()) else {
        return Ok(None);
    };
    let number = loading.number();
    match load_file(alloc, source, number, loading.size, asked) {
        Ok(file) => Ok(Some(file)),
        Err(fault) => Err(fault_of(loading, entry, asked, fault)),
    }
}

/// Loads the entry and all that the files ask for, each file before those that it asks for.
pub fn load_files<S: Source>(
    alloc: Global,
    source: &mut S,
    entry: &Text,
) -> Result<Loading, LoadFault>
    ensures unchanged { S.files source.new ≡ S.files source.old }
    ensures told { AllTells (S.files source.old) entry.now result }
    ensures cause { LoadCause (S.faults source.old) (S.faults source.new) result }
{
    let mut loading = Loading::new(alloc, entry)?;
    while let Some(file) = load_next(alloc, source, entry, &loading)? {
        loading.push(alloc, file)?;
    }
    Ok(loading)
}
