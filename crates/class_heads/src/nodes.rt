//! Classes by their numbers.
ghost use Rattle.std.specs.Prelude.{◌≡◌, [], ◌∷◌, ◌++◌, length, IfOk, OnOk};
ghost use Rattle.std.specs.List.{filter_map};
ghost use Rattle.class_heads.specs.Classes as spec;
ghost use Rattle.class_heads.specs.Heads.{meant};
ghost use Rattle.class_heads.specs.Written.{interface_names, superclass_names};

use crate::naming::{Naming, object_number};
use crate::written::{WrittenClass, numbers, written};
use code_units::{NumberList, Text};
use dart_grammar::trees::{Name, Names};
use dart_program::SourceFile;
use dart_sites::lent::{Lent, LentSlice};
use dart_sites::surroundings::Owner;
use library_scopes::Scopes;
use sqlite_items::Items;
use std::alloc::{AllocError, Global};

/// A class.
#[derive(Drop)]
pub struct ClassNode {
    /// The name that is written; where there is none, that of the class in whose head it stands, `&`, and that of its mixin.
    pub name: Text,
    /// The number of the class that is written among those that are, where it has a name.
    pub written: Option<u32>,
    /// The number of its file.
    pub file: u32,
    pub superclass: Option<u32>,
    pub mixin: Option<u32>,
    pub interfaces: NumberList,
}

const AMPERSAND: u16 = 38;

fn unless_itself(class: u32, object: Option<u32>) -> Option<u32>
    ensures { result ≡ spec.unless_itself class object }
{
    match object {
        Some(object) if object != class => Some(object),
        _ => None,
    }
}

/// The text of the last name.
fn last_text(names: &[Name]) -> &[u16]
    ensures { result.now ≡ spec.last_text [] names.now }
{
    let mut text: &[u16] = &[];
    for name in names {
        text = name.text.as_slice();
    }
    text
}

fn joined_name(written: &WrittenClass<'_>, mixin: &[Name]) -> Result<Text, AllocError>
    ensures { IfOk result (λ name. name ≡ spec.joined_name written.now.class mixin.now) }
{
    let mut name = written.name().text.copy()?;
    name.push(AMPERSAND)?;
    name.extend(last_text(mixin))?;
    Ok(name)
}

/// The class that the first class of a head extends, which has this number.
fn first_superclass(naming: &Naming<'_>, written: &WrittenClass<'_>, class: u32) -> Option<u32>
    ensures { result ≡ spec.first_superclass naming.now written.now class (superclass_names written.now.class) }
{
    match written.superclass() {
        Some(names) => naming.meant(written, names.as_slice()),
        None => unless_itself(class, naming.object),
    }
}

fn interfaces(
    alloc: Global,
    naming: &Naming<'_>,
    written: &WrittenClass<'_>,
) -> Result<NumberList, AllocError>
    ensures { IfOk result (λ numbers. numbers ≡ filter_map (meant naming.now written.now) (interface_names written.now.class)) }
{
    let mut numbers = NumberList::new(alloc);
    for names in written.interfaces() {
        if let Some(number) = naming.meant(written, names.as_slice()) {
            numbers.push(number)?;
        }
    }
    Ok(numbers)
}

/// A class without a name, with this mixin.
fn nameless_class(
    alloc: Global,
    naming: &Naming<'_>,
    written: &WrittenClass<'_>,
    superclass: Option<u32>,
    mixin: &[Name],
) -> Result<ClassNode, AllocError>
    ensures { IfOk result (λ class. class ≡ spec.nameless_class naming.now written.now superclass mixin.now) }
{
    let name = joined_name(written, mixin)?;
    Ok(ClassNode {
        name,
        written: None,
        file: written.file,
        superclass,
        mixin: naming.meant(written, mixin),
        interfaces: NumberList::new(alloc),
    })
}

/// The class that is written.
fn named_class(
    alloc: Global,
    naming: &Naming<'_>,
    written: &WrittenClass<'_>,
    superclass: Option<u32>,
    mixin: Option<u32>,
) -> Result<ClassNode, AllocError>
    ensures { IfOk result (λ class. class ≡ spec.named_class naming.now written.now superclass mixin) }
{
    let name = written.name().text.copy()?;
    let interfaces = interfaces(alloc, naming, written)?;
    Ok(ClassNode {
        name,
        written: Some(written.number),
        file: written.file,
        superclass,
        mixin,
        interfaces,
    })
}

/// How many classes there are, which is the number of the next one.
fn number_behind(classes: &Items<ClassNode>) -> Result<u32, AllocError>
    ensures { IfOk result (λ number. number ≡ length classes.now) }
{
    u32::try_from(classes.len()).map_err(|_| AllocError)
}

/// Adds the class that is written.
fn push_named(
    classes: &mut Items<ClassNode>,
    alloc: Global,
    naming: &Naming<'_>,
    written: &WrittenClass<'_>,
    superclass: Option<u32>,
    mixin: Option<u32>,
) -> Result<(), AllocError>
    ensures { OnOk result (classes.new ≡ classes.old ++ spec.named_class naming.now written.now superclass mixin ∷ []) }
{
    classes.push(named_class(alloc, naming, written, superclass, mixin)?)?;
    Ok(())
}

fn push_with_body(
    classes: &mut Items<ClassNode>,
    alloc: Global,
    naming: &Naming<'_>,
    written: &WrittenClass<'_>,
    superclass: Option<u32>,
    mixins: &[Names],
) -> Result<(), AllocError>
    ensures { OnOk result (classes.new ≡ spec.with_body naming.now written.now classes.old superclass mixins.now) }
{
    let mut superclass = superclass;
    for mixin in mixins {
        let number = number_behind(classes)?;
        let class = nameless_class(alloc, naming, written, superclass, mixin.as_slice())?;
        classes.push(class)?;
        superclass = Some(number);
    }
    push_named(classes, alloc, naming, written, superclass, None)
}

fn push_without_body(
    classes: &mut Items<ClassNode>,
    alloc: Global,
    naming: &Naming<'_>,
    written: &WrittenClass<'_>,
    superclass: Option<u32>,
    mixins: &[Names],
) -> Result<(), AllocError>
    ensures { OnOk result (classes.new ≡ spec.without_body naming.now written.now classes.old superclass mixins.now) }
{
    let mut superclass = superclass;
    let mut rest = mixins;
    'mixins: while let Some((mixin, more)) = rest.split_first() {
        if more.is_empty() {
            let last = naming.meant(written, mixin.as_slice());
            return push_named(classes, alloc, naming, written, superclass, last);
        }
        let number = number_behind(classes)?;
        let class = nameless_class(alloc, naming, written, superclass, mixin.as_slice())?;
        classes.push(class)?;
        superclass = Some(number);
        rest = more;
    }
    push_named(classes, alloc, naming, written, superclass, None)
}

/// Adds the classes of a head behind those that stand before it.
fn push_head(
    classes: &mut Items<ClassNode>,
    alloc: Global,
    naming: &Naming<'_>,
    written: &WrittenClass<'_>,
) -> Result<(), AllocError>
    ensures { OnOk result (classes.new ≡ spec.with_head naming.now classes.old written.now) }
{
    let first = number_behind(classes)?;
    let superclass = first_superclass(naming, written, first);
    match &written.class {
        Owner::Class(class) => {
            let mixins = class.get().mixins.as_slice();
            push_with_body(classes, alloc, naming, written, superclass, mixins)
        }
        Owner::Alias(alias) => {
            let mixins = alias.get().mixins.as_slice();
            push_without_body(classes, alloc, naming, written, superclass, mixins)
        }
    }
}

fn push_heads(
    classes: &mut Items<ClassNode>,
    alloc: Global,
    naming: &Naming<'_>,
    written: &[WrittenClass<'_>],
) -> Result<(), AllocError>
    ensures { OnOk result (classes.new ≡ spec.with_heads naming.now classes.old written.now) }
{
    for class in written {
        push_head(classes, alloc, naming, class)?;
    }
    Ok(())
}

/// The classes of a program by their numbers: those that are written, and those without a name in their heads. The scopes
/// are those of the program.
#[tactic(auto, unfolding(crate::specs::Classes::classes, crate::specs::Written::class_numbers))]
pub fn classes(
    alloc: Global,
    files: &[SourceFile],
    scopes: &Scopes,
) -> Result<Items<ClassNode>, AllocError>
    ensures { IfOk result (λ classes. classes ≡ spec.classes files.now scopes.now) }
{
    let written = written(alloc, files)?;
    let numbers = numbers(alloc, written.as_slice())?;
    let naming = Naming {
        scopes: Lent::new(scopes),
        numbers: LentSlice::new(numbers.as_slice()),
        object: object_number(alloc, scopes, numbers.as_slice())?,
    };
    let mut classes = Items::new(alloc);
    push_heads(&mut classes, alloc, &naming, written.as_slice())?;
    Ok(classes)
}
