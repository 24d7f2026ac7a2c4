//! The libraries of a program, read from its files.
ghost use Rattle.std.specs.Prelude.{◌≡◌, ◌+◌, [], Some, if◌then◌else◌, map, flat_map, OnOk, IfOk};
ghost use Rattle.dart_program.specs.Declares.{AVariable, declared_by, declared_in, variable_name};
ghost use Rattle.library_scopes.specs.Libraries as spec;
ghost use Rattle.library_scopes.specs.Reading.{declared_one, declared_all};

use crate::libraries::{Imported, Library, Prefix, Scopes, Selection};
use crate::named::Named;
use crate::names::{NameSet, Names};
use dart_grammar::declarations::{Combinator, Declaration, FileTree, Import};
use dart_grammar::trees::{Name, Variable};
use dart_program::SourceFile;
use sqlite_items::Items;
use std::alloc::{AllocError, Global};

/// How many things of each kind there are so far.
#[derive(Clone, Copy, Debug, PartialEq, Eq)]
pub struct Numbers {
    /// Classes and aliases.
    pub classes: u32,
    /// Members outside classes.
    pub members: u32,
    /// Deferred imports.
    pub deferred: u32,
}

/// What a library declares so far.
#[derive(Drop)]
pub struct Declaring {
    pub values: Names,
    pub setters: Names,
    pub numbers: Numbers,
}

/// The prefixes of a library so far, those of the program so far, and how many deferred imports there are so far.
#[derive(Drop)]
pub struct Prefixing {
    pub table: Names,
    pub prefixes: Items<Prefix>,
    pub deferred: u32,
}

/// The libraries of the files so far.
#[derive(Drop)]
pub struct Reading {
    pub scopes: Scopes,
    pub numbers: Numbers,
}

/// One more. There is no room for more than 2^32 - 1 things of a kind.
pub fn one_more(count: u32) -> Result<u32, AllocError>
    ensures { IfOk result (λ more. more ≡ count + 1) }
{
    count.checked_add(1).ok_or(AllocError)
}

/// The number of an item behind so many others.
fn number_behind(count: usize) -> Result<u32, AllocError>
    ensures { IfOk result (λ number. number ≡ count) }
{
    u32::try_from(count).map_err(|_| AllocError)
}

impl Declaring {
    /// One more declaration of this name.
    fn declare(
        &mut self,
        name: &Name,
        is_class: bool,
        is_value: bool,
        is_setter: bool,
    ) -> Result<(), AllocError>
        ensures { OnOk result (self.new ≡ declared_one self.old name.now is_class is_value is_setter) }
    {
        let named = if is_class {
            let number = self.numbers.classes;
            self.numbers.classes = one_more(number)?;
            Named::Class(number)
        } else {
            let number = self.numbers.members;
            self.numbers.members = one_more(number)?;
            Named::Member(number)
        };
        let text = name.text.as_slice();
        if is_value {
            self.values.put(text, named)?;
        }
        if is_setter {
            self.setters.put(text, named)?;
        }
        Ok(())
    }

    fn declare_variables(
        &mut self,
        is_final: bool,
        variables: &[Variable],
    ) -> Result<(), AllocError>
        ensures { OnOk result (self.new ≡ declared_all self.old (map (AVariable is_final) variables.now)) }
    {
        for variable in variables {
            self.declare(name_of_variable(variable), false, true, !is_final)?;
        }
        Ok(())
    }

    fn declare_one(&mut self, declaration: &Declaration) -> Result<(), AllocError>
        ensures { OnOk result (self.new ≡ declared_all self.old (declared_by declaration.now)) }
    {
        match declaration {
            Declaration::Class(class) => self.declare(&class.name, true, true, false),
            Declaration::Alias(alias) => self.declare(&alias.name, true, true, false),
            Declaration::Function(function) => self.declare(&function.name, false, true, false),
            Declaration::Getter(getter) => self.declare(&getter.name, false, true, false),
            Declaration::Setter(setter) => self.declare(&setter.name, false, false, true),
            Declaration::Variables(_, variables) => {
                self.declare_variables(variables.is_final, variables.items.as_slice())
            }
        }
    }

    #[tactic(auto, using(crate::proofs::Steps::declared_behind))]
    fn declare_all(&mut self, declarations: &[Declaration]) -> Result<(), AllocError>
        ensures { OnOk result (self.new ≡ declared_all self.old (flat_map declared_by declarations.now)) }
    {
        for declaration in declarations {
            self.declare_one(declaration)?;
        }
        Ok(())
    }
}

/// The name of a variable.
pub fn name_of_variable(variable: &Variable) -> &Name
    ensures { result.now ≡ variable_name variable.now }
{
    match variable {
        Variable::Unset(name) => name,
        Variable::Initialised(name, _) => name,
    }
}

/// How many deferred imports there are behind an import.
fn deferred_behind(before: u32, is_deferred: bool) -> Result<u32, AllocError>
    ensures { IfOk result (λ count. count ≡ (if is_deferred then before + 1 else before)) }
{
    if is_deferred {
        one_more(before)
    } else {
        Ok(before)
    }
}

impl Prefixing {
    /// One more import of the library of this number.
    fn take(&mut self, library: u32, import: &Import) -> Result<(), AllocError>
        ensures { OnOk result (self.new ≡ spec.prefixed library self.old import.now) }
    {
        let before = self.deferred;
        let deferred = if import.is_deferred {
            Some(before)
        } else {
            None
        };
        self.take_prefix(&import.prefix, Prefix { library, deferred })?;
        self.deferred = deferred_behind(before, import.is_deferred)?;
        Ok(())
    }

    fn take_prefix(&mut self, name: &Option<Name>, prefix: Prefix) -> Result<(), AllocError>
        ensures { OnOk result (self.new ≡ spec.one_prefixed self.old name.now prefix) }
    {
        match name {
            Some(name) => self.take_name(name, prefix),
            None => Ok(()),
        }
    }

    fn take_name(&mut self, name: &Name, prefix: Prefix) -> Result<(), AllocError>
        ensures { OnOk result (self.new ≡ spec.one_prefixed self.old (Some name.now) prefix) }
    {
        let text = name.text.as_slice();
        let number = number_behind(self.prefixes.len())?;
        let is_known = self.table.has(text);
        self.table.put(text, Named::Prefix(number))?;
        if !is_known {
            self.prefixes.push(prefix)?;
        }
        Ok(())
    }

    fn take_all(&mut self, library: u32, imports: &[Import]) -> Result<(), AllocError>
        ensures { OnOk result (self.new ≡ spec.all_prefixed library self.old imports.now) }
    {
        for import in imports {
            self.take(library, import)?;
        }
        Ok(())
    }
}

fn name_set(alloc: Global, names: &[Name]) -> Result<NameSet, AllocError>
    ensures { IfOk result (λ set. set ≡ spec.with_all names.now []) }
{
    let mut set = NameSet::new(alloc);
    for name in names {
        set.put(name.text.as_slice())?;
    }
    Ok(set)
}

fn selections(alloc: Global, combinators: &[Combinator]) -> Result<Items<Selection>, AllocError>
    ensures { IfOk result (λ selections. selections ≡ map spec.selection combinators.now) }
{
    let mut selections = Items::new(alloc);
    for combinator in combinators {
        let names = name_set(alloc, combinator.names.as_slice())?;
        selections.push(Selection {
            hides: combinator.hides,
            names,
        })?;
    }
    Ok(selections)
}

fn prefix_number(prefixes: &Names, prefix: &Option<Name>) -> Option<u32>
    ensures { result ≡ spec.prefix_number prefixes.now prefix.now }
{
    match prefix {
        Some(name) => number_of(prefixes.find(name.text.as_slice())?),
        None => None,
    }
}

/// The number of a prefix.
pub fn number_of(named: Named) -> Option<u32>
    ensures { result ≡ spec.number_of named }
{
    match named {
        Named::Prefix(number) => Some(number),
        _ => None,
    }
}

fn imported(
    alloc: Global,
    prefixes: &Names,
    import: &Import,
    link: u32,
) -> Result<Imported, AllocError>
    ensures { IfOk result (λ imported. imported ≡ spec.imported prefixes.now import.now link) }
{
    let selections = selections(alloc, import.combinators.as_slice())?;
    Ok(Imported {
        library: link,
        prefix: prefix_number(prefixes, &import.prefix),
        selections,
    })
}

fn all_imported(
    alloc: Global,
    prefixes: &Names,
    imports: &[Import],
    links: &[u32],
) -> Result<Items<Imported>, AllocError>
    ensures { IfOk result (λ all. all ≡ spec.all_imported prefixes.now imports.now links.now) }
{
    let mut all = Items::new(alloc);
    let mut rest = links;
    for import in imports {
        match rest.split_first() {
            Some((link, more)) => {
                all.push(imported(alloc, prefixes, import, *link)?)?;
                rest = more;
            }
            None => return Ok(all),
        }
    }
    Ok(all)
}

impl Reading {
    fn new(alloc: Global) -> Reading
        ensures { result ≡ spec.no_files }
    {
        Reading {
            scopes: Scopes {
                libraries: Items::new(alloc),
                prefixes: Items::new(alloc),
            },
            numbers: Numbers {
                classes: 0,
                members: 0,
                deferred: 0,
            },
        }
    }

    /// With one more file.
    fn with_file(self, alloc: Global, file: &SourceFile) -> Result<Reading, AllocError>
        ensures { IfOk result (λ reading. reading ≡ spec.with_file self file.now) }
    {
        let Reading { scopes, numbers } = self;
        let Scopes {
            mut libraries,
            prefixes,
        } = scopes;
        let number = number_behind(libraries.len())?;
        let mut prefixing = Prefixing {
            table: Names::new(alloc),
            prefixes,
            deferred: numbers.deferred,
        };
        prefixing.take_all(number, file.tree.imports.as_slice())?;
        let Prefixing {
            table,
            prefixes,
            deferred,
        } = prefixing;
        let mut declaring = Declaring {
            values: Names::new(alloc),
            setters: Names::new(alloc),
            numbers,
        };
        declaring.declare_all(file.tree.declarations.as_slice())?;
        let Declaring {
            values,
            setters,
            numbers,
        } = declaring;
        let imports = all_imported(
            alloc,
            &table,
            file.tree.imports.as_slice(),
            file.links.as_slice(),
        )?;
        libraries.push(Library {
            values,
            setters,
            prefixes: table,
            imports,
        })?;
        Ok(Reading {
            scopes: Scopes {
                libraries,
                prefixes,
            },
            numbers: Numbers {
                classes: numbers.classes,
                members: numbers.members,
                deferred,
            },
        })
    }
}

/// The libraries and the prefixes of these files.
#[tactic(auto, unfolding(crate::specs::Libraries::scopes_of))]
pub fn read(alloc: Global, files: &[SourceFile]) -> Result<Scopes, AllocError>
    ensures { IfOk result (λ scopes. scopes ≡ spec.scopes_of files.now) }
{
    let mut reading = Reading::new(alloc);
    for file in files {
        reading = reading.with_file(alloc, file)?;
    }
    Ok(reading.scopes)
}
