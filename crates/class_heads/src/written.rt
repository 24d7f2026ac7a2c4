//! The classes of a program as they are written.
ghost use Rattle.std.specs.Prelude.{◌≡◌, ◌+◌, IfOk, OnOk};
ghost use Rattle.std.specs.Option.{option_copied};
ghost use Rattle.class_heads.specs.Written as spec;

use code_units::NumberList;
use dart_grammar::declarations::Declaration;
use dart_grammar::trees::{Name, Names};
use dart_program::SourceFile;
use dart_sites::lent::Lent;
use dart_sites::surroundings::Owner;
use library_scopes::reading::one_more;
use sqlite_items::Items;
use std::alloc::{AllocError, Global};

/// A class that is written, with a body or without one.
#[derive(Drop)]
pub struct WrittenClass<'a> {
    /// Its number among those that are written.
    pub number: u32,
    /// The number of its file.
    pub file: u32,
    pub class: Owner<'a>,
}

/// The class that a declaration declares, if any.
fn owner(declaration: &Declaration) -> Option<Owner<'_>>
    ensures { result ≡ spec.owner declaration.now }
{
    match declaration {
        Declaration::Class(class) => Some(Owner::Class(Lent::new(class))),
        Declaration::Alias(alias) => Some(Owner::Alias(Lent::new(alias))),
        _ => None,
    }
}

/// Adds what a declaration declares behind what those before it declare.
fn push_declaration<'a>(
    written: &mut Items<WrittenClass<'a>>,
    file: u32,
    declaration: &'a Declaration,
) -> Result<(), AllocError>
    ensures { OnOk result (written.new ≡ spec.with_declaration file written.old declaration.now) }
{
    if let Some(class) = owner(declaration) {
        let number = u32::try_from(written.len()).map_err(|_| AllocError)?;
        written.push(WrittenClass {
            number,
            file,
            class,
        })?;
    }
    Ok(())
}

fn push_declarations<'a>(
    written: &mut Items<WrittenClass<'a>>,
    file: u32,
    declarations: &'a [Declaration],
) -> Result<(), AllocError>
    ensures { OnOk result (written.new ≡ spec.with_declarations file written.old declarations.now) }
{
    for declaration in declarations {
        push_declaration(written, file, declaration)?;
    }
    Ok(())
}

/// The classes of these files as they are written, in the order of files and of declaration.
#[tactic(auto, unfolding(crate::specs::Written::written))]
pub fn written<'a>(
    alloc: Global,
    files: &'a [SourceFile],
) -> Result<Items<WrittenClass<'a>>, AllocError>
    ensures { IfOk result (λ written. written ≡ spec.written files.now) }
{
    let mut written = Items::new(alloc);
    let mut number = 0;
    for file in files {
        push_declarations(&mut written, number, file.tree.declarations.as_slice())?;
        number = one_more(number)?;
    }
    Ok(written)
}

impl<'a> WrittenClass<'a> {
    /// Its name.
    pub fn name(&self) -> &'a Name
        ensures { result.now ≡ spec.own_name self.now.class }
    {
        match &self.class {
            Owner::Class(class) => &class.get().name,
            Owner::Alias(alias) => &alias.get().name,
        }
    }

    /// Its type parameters.
    pub fn type_parameters(&self) -> &'a [Name]
        ensures { result.now ≡ spec.type_parameters self.now.class }
    {
        match &self.class {
            Owner::Class(class) => class.get().type_parameters.as_slice(),
            Owner::Alias(alias) => alias.get().type_parameters.as_slice(),
        }
    }

    /// The superclass that it names.
    pub fn superclass(&self) -> Option<&'a Names>
        ensures { option_copied result ≡ spec.superclass_names self.now.class }
    {
        match &self.class {
            Owner::Class(class) => class.get().superclass.as_ref(),
            Owner::Alias(alias) => Some(&alias.get().superclass),
        }
    }

    /// The mixins that it names.
    pub fn mixins(&self) -> &'a [Names]
        ensures { result.now ≡ spec.mixin_names self.now.class }
    {
        match &self.class {
            Owner::Class(class) => class.get().mixins.as_slice(),
            Owner::Alias(alias) => alias.get().mixins.as_slice(),
        }
    }

    /// The interfaces that it names.
    pub fn interfaces(&self) -> &'a [Names]
        ensures { result.now ≡ spec.interface_names self.now.class }
    {
        match &self.class {
            Owner::Class(class) => class.get().interfaces.as_slice(),
            Owner::Alias(alias) => alias.get().interfaces.as_slice(),
        }
    }

    /// How many classes without a name its head has.
    pub fn nameless(&self) -> usize
        ensures { result ≡ spec.nameless self.now.class }
    {
        match &self.class {
            Owner::Class(class) => class.get().mixins.len(),
            Owner::Alias(alias) => alias.get().mixins.len().saturating_sub(1),
        }
    }
}

/// A number and so many more.
pub fn behind(number: u32, count: usize) -> Result<u32, AllocError>
    ensures { IfOk result (λ sum. sum ≡ number + count) }
{
    let count = u32::try_from(count).map_err(|_| AllocError)?;
    number.checked_add(count).ok_or(AllocError)
}

/// The numbers of written classes among all classes.
pub fn numbers(alloc: Global, written: &[WrittenClass<'_>]) -> Result<NumberList, AllocError>
    ensures { IfOk result (λ numbers. numbers ≡ spec.numbers_from 0 written.now) }
{
    let mut numbers = NumberList::new(alloc);
    let mut next = 0;
    for class in written {
        let number = behind(next, class.nameless())?;
        numbers.push(number)?;
        next = one_more(number)?;
    }
    Ok(numbers)
}
