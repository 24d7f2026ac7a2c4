//! What the entry and the files ask for: each file once, in the order in which they are first asked for.
ghost use Rattle.std.specs.Prelude.{◌≡◌, ◌++◌, ◌∷◌, [], ◌≤◌, length, map, flat_map, slice_get, None, IfOk, OnOk, OnErr};
ghost use Rattle.std.specs.Option.{option_copied, option_map, ForSome};
ghost use Rattle.dart_program.specs.Loading.{asked_first, asked_by, most_files};
ghost use Rattle.dart_program.specs.Loading as spec;
ghost use Rattle.source_loading.specs.Numbers.{numbered};
ghost use Rattle.source_loading.specs.Asking.{asked_of, asks_already, with_asked, with_all, numbered_entry};

use crate::numbers::Numbers;
use code_units::{NumberList, Text};
use dart_grammar::declarations::Import;
use dart_program::paths::{is_core, named_from};
use std::alloc::{AllocError, Global};
use std::marker::Model;

/// A file that is asked for.
#[derive(Drop)]
pub struct AskedFile {
    /// Its name; none where a `..` has nothing to remove.
    pub name: Option<Text>,
    /// The number of the file that asks for it.
    pub file: u32,
    /// The offset in bytes at which it is asked for.
    pub at: u32,
}

/// Files that are asked for, each once.
#[derive(Drop)]
pub struct Asks {
    files: Vec<AskedFile>,
    numbers: Numbers,
}

impl Model for Asks {
    ghost use Rattle.std.specs.Prelude.{List, map};
    ghost use Rattle.dart_program.specs.Loading.{Asked};
    ghost use Rattle.source_loading.specs.Asking.{asked_of, AreNumbered};

    ghost Value = { List Asked };

    ghost view = { λ asks. map asked_of asks.files.items };

    ghost invariant = { λ asks. AreNumbered asks.numbers (map asked_of asks.files.items) };
}

// Puts in the number of the file, if it has a name.
fn put_number(numbers: &mut Numbers, file: &AskedFile, number: usize) -> Result<(), AllocError>
    requires { ForSome file.now.name (λ name. numbered name numbers.old ≡ None) }
    ensures ok { OnOk result (numbers.new ≡ numbers.old ++ numbered_entry file.now.name number) }
    ensures err { OnErr result (numbers.new ≡ numbers.old) }
{
    match &file.name {
        Some(name) => numbers.put(name.as_slice(), number),
        None => Ok(()),
    }
}

impl Asks {
    /// Nothing.
    pub fn new(alloc: Global) -> Asks
        ensures { result ≡ [] }
    {
        Asks {
            files: Vec::new(alloc),
            numbers: Numbers::new(alloc),
        }
    }

    /// How many files are asked for.
    pub fn len(&self) -> usize
        ensures { result ≡ length self.now }
    {
        self.files.len()
    }

    /// What is asked for at place `i`, counted from 0.
    pub fn get(&self, i: usize) -> Option<&AskedFile>
        ensures { option_map asked_of (option_copied result) ≡ slice_get self.now i }
    {
        self.files.get(i)
    }

    // Whether a file of that name is asked for.
    fn has(&self, file: &AskedFile) -> bool
        ensures { result ≡ asks_already self.now (asked_of file.now) }
    {
        match &file.name {
            Some(name) => self.numbers.has(name.as_slice()),
            None => false,
        }
    }

    /// Asks for a file, unless one of its name is asked for.
    pub fn ask(&mut self, file: AskedFile) -> Result<(), AllocError>
        ensures { OnOk result (self.new ≡ with_asked self.old (asked_of file)) }
    {
        if self.has(&file) {
            return Ok(());
        }
        // So that nothing is left to undo.
        self.files.reserve(1)?;
        put_number(&mut self.numbers, &file, self.files.len() + 1)?;
        self.files.push(file)?;
        Ok(())
    }

    // Asks for what an import of the file of that number and name means.
    fn ask_import(
        &mut self,
        alloc: Global,
        number: u32,
        name: &Text,
        import: &Import,
    ) -> Result<(), AllocError>
        ensures { OnOk result (self.new ≡ with_all self.old (asked_by number name.now import.now)) }
    {
        if is_core(&import.uri) {
            return Ok(());
        }
        let asked = AskedFile {
            name: named_from(alloc, name, &import.uri)?,
            file: number,
            at: import.uri_span.from,
        };
        self.ask(asked)
    }

    /// Asks for what the imports of the file of that number and name mean.
    pub fn ask_imports(
        &mut self,
        alloc: Global,
        number: u32,
        name: &Text,
        imports: &[Import],
    ) -> Result<(), AllocError>
        ensures { OnOk result (self.new ≡ with_all self.old (flat_map (asked_by number name.now) imports.now)) }
    {
        for import in imports {
            self.ask_import(alloc, number, name, import)?;
        }
        Ok(())
    }

    // The number of the file of this name; behind all where none has it.
    #[tactic(auto, using(crate::proofs::Numbering::number_found, crate::proofs::Numbering::number_behind, crate::proofs::Numbering::number_within))]
    fn number_of(&self, name: &Text) -> u32
        requires { length self.now ≤ most_files }
        ensures { result ≡ spec.number_from 1 name.now self.now }
    {
        match self.numbers.find(name.as_slice()) {
            Some(number) => number as u32,
            None => self.files.len() as u32 + 1,
        }
    }

    // The number of the file that an import of a file of that name means.
    fn link(&self, alloc: Global, name: &Text, import: &Import) -> Result<u32, AllocError>
        requires { length self.now ≤ most_files }
        ensures { IfOk result (λ number. number ≡ spec.link self.now name.now import.now) }
    {
        if is_core(&import.uri) {
            return Ok(0);
        }
        match named_from(alloc, name, &import.uri)? {
            Some(name) => Ok(self.number_of(&name)),
            None => Ok(0),
        }
    }

    /// The numbers of the files that these imports of a file of that name mean.
    pub fn links(
        &self,
        alloc: Global,
        name: &Text,
        imports: &[Import],
    ) -> Result<NumberList, AllocError>
        requires { length self.now ≤ most_files }
        ensures { IfOk result (λ links. links ≡ map (spec.link self.now name.now) imports.now) }
    {
        let mut links = NumberList::new(alloc);
        for import in imports {
            links.push(self.link(alloc, name, import)?)?;
        }
        Ok(links)
    }
}

/// What the entry asks for, which is itself.
pub fn entry_asks(alloc: Global, entry: &Text) -> Result<Asks, AllocError>
    ensures { IfOk result (λ asks. asks ≡ asked_first entry.now ∷ []) }
{
    let asked = AskedFile {
        name: named_from(alloc, &Text::new(alloc), entry)?,
        file: 1,
        at: 0,
    };
    let mut asks = Asks::new(alloc);
    asks.ask(asked)?;
    Ok(asks)
}
