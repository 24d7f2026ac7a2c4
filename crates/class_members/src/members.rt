//! All members of a program by their numbers.
ghost use Rattle.std.specs.Prelude.{◌≡◌, ◌+◌, suc, IfOk, OnOk};
ghost use Rattle.std.specs.List.{list_any};
ghost use Rattle.class_heads.specs.Rules.{is_constructor};
ghost use Rattle.class_heads.specs.Written.{nameless};
ghost use Rattle.dart_sites.specs.declared.surroundings.Owner.TheVariants as o;
ghost use Rattle.class_members.specs.Members as spec;
ghost use Rattle.class_members.specs.Steps as step;

use crate::constructions::{constructions, lacks_implicit};
use crate::program::ProgramClasses;
use class_heads::written::behind;
use dart_grammar::declarations::{Alias, Class, Declaration, Member};
use dart_grammar::trees::Variable;
use library_scopes::reading::one_more;
use sqlite_items::Items;
use std::alloc::{AllocError, Global};

/// Where a member is declared.
#[derive(Clone, Copy, Debug, PartialEq, Eq)]
pub struct Place {
    /// The number of the declaration in its file.
    pub declaration: u32,
    /// The number of the member in the body of a class.
    pub member: Option<u32>,
    /// The number of the variable among those that are declared together; else 0.
    pub variable: u32,
}

/// A constructor of a class.
#[derive(Clone, Copy, Debug, PartialEq, Eq)]
pub struct Construction {
    /// The number of the class.
    pub class: u32,
    /// The number of the member in the body of the class; none where no constructor is written.
    pub member: Option<u32>,
}

/// What a member is.
#[derive(Clone, Copy, Debug, PartialEq, Eq)]
pub enum MemberKind {
    /// Written there.
    Declared(Place),
    /// The constructor of a class with a mixin, for this one of the first class upwards that has none.
    Forwarded(Construction),
    /// The constructor of a class in which none is written.
    Implied,
}

/// A member.
#[derive(Clone, Copy, Debug, PartialEq, Eq)]
pub struct MemberNode {
    /// The number of its file.
    pub file: u32,
    /// The number of its class; none outside classes.
    pub class: Option<u32>,
    pub kind: MemberKind,
}

/// Adds one behind those before it.
fn push_one(
    members: &mut Items<MemberNode>,
    file: u32,
    class: Option<u32>,
    kind: MemberKind,
) -> Result<(), AllocError>
    ensures { OnOk result (members.new ≡ step.with_one file class kind members.old) }
{
    members.push(MemberNode { file, class, kind })
}

/// The variable of this number among those that are declared together.
fn declared_at(declaration: u32, member: Option<u32>, variable: u32) -> MemberKind
    ensures { result ≡ spec.place declaration member variable }
{
    MemberKind::Declared(Place {
        declaration,
        member,
        variable,
    })
}

fn push_variables(
    members: &mut Items<MemberNode>,
    file: u32,
    class: Option<u32>,
    declaration: u32,
    member: Option<u32>,
    variables: &[Variable],
) -> Result<(), AllocError>
    ensures { OnOk result (members.new ≡ step.with_variables file class declaration member members.old 0 variables.now) }
{
    let mut number = 0;
    for _variable in variables {
        let kind = declared_at(declaration, member, number);
        push_one(members, file, class, kind)?;
        number = one_more(number)?;
    }
    Ok(())
}

// ---- the members of a body

fn push_member(
    members: &mut Items<MemberNode>,
    file: u32,
    class: u32,
    declaration: u32,
    number: u32,
    member: &Member,
) -> Result<(), AllocError>
    ensures { OnOk result (members.new ≡ step.with_member file class declaration number members.old member.now) }
{
    match member {
        Member::Fields(_, _, variables) => {
            let variables = variables.items.as_slice();
            push_variables(
                members,
                file,
                Some(class),
                declaration,
                Some(number),
                variables,
            )
        }
        _ => {
            let kind = declared_at(declaration, Some(number), 0);
            push_one(members, file, Some(class), kind)
        }
    }
}

fn push_members(
    members: &mut Items<MemberNode>,
    file: u32,
    class: u32,
    declaration: u32,
    body: &[Member],
) -> Result<(), AllocError>
    ensures { OnOk result (members.new ≡ step.with_members file class declaration 0 members.old body.now) }
{
    let mut number = 0;
    for member in body {
        push_member(members, file, class, declaration, number, member)?;
        number = one_more(number)?;
    }
    Ok(())
}

// ---- constructors that are not written

/// Adds one for each of these constructors of the superclass.
fn push_forwarded(
    members: &mut Items<MemberNode>,
    file: u32,
    class: u32,
    constructions: &[Construction],
) -> Result<(), AllocError>
    ensures { OnOk result (members.new ≡ step.with_forwarded file class members.old constructions.now) }
{
    for construction in constructions {
        let kind = MemberKind::Forwarded(*construction);
        push_one(members, file, Some(class), kind)?;
    }
    Ok(())
}

/// Adds those of so many classes from the first one on.
#[tactic(auto, using(crate::proofs::Forwarded::all_forwarded, crate::proofs::Forwarded::none_forwarded, crate::proofs::Forwarded::one_forwarded))]
fn push_all_forwarded(
    members: &mut Items<MemberNode>,
    alloc: Global,
    program: &ProgramClasses<'_>,
    file: u32,
    first: u32,
    count: usize,
) -> Result<(), AllocError>
    ensures { OnOk result (members.new ≡ step.with_all_forwarded program.now file members.old first count) }
{
    let mut class = first;
    for _done in 0..count {
        let forwarded = constructions(alloc, program, class)?;
        push_forwarded(members, file, class, forwarded.as_slice())?;
        class = one_more(class)?;
    }
    Ok(())
}

fn is_constructor(member: &Member) -> bool
    ensures { result ≡ is_constructor member.now }
{
    matches!(member, Member::Constructor(_))
}

fn has_constructor(class: &Class) -> bool
    ensures { result ≡ list_any is_constructor class.now.members }
{
    class
        .members
        .as_slice()
        .iter()
        .any(|member| is_constructor(member))
}

fn push_implied(
    members: &mut Items<MemberNode>,
    file: u32,
    class: u32,
    body: &Class,
) -> Result<(), AllocError>
    ensures { OnOk result (members.new ≡ step.with_implied file class body.now members.old) }
{
    if has_constructor(body) || lacks_implicit(file, body) {
        Ok(())
    } else {
        push_one(members, file, Some(class), MemberKind::Implied)
    }
}

// ---- declarations

/// Adds what a class has, and before it what those without a name in its head have, of which the first one has this number.
fn push_class(
    members: &mut Items<MemberNode>,
    alloc: Global,
    program: &ProgramClasses<'_>,
    file: u32,
    first: u32,
    declaration: u32,
    class: &Class,
) -> Result<(), AllocError>
    ensures { OnOk result (members.new ≡ step.with_class program.now file first declaration members.old class.now) }
{
    let nameless = class.mixins.len();
    push_all_forwarded(members, alloc, program, file, first, nameless)?;
    let own = behind(first, nameless)?;
    push_members(members, file, own, declaration, class.members.as_slice())?;
    push_implied(members, file, own, class)
}

/// How many classes an alias makes, itself with them.
fn made_by_alias(alias: &Alias) -> usize
    ensures { result ≡ suc (nameless (o.Alias alias.now)) }
{
    alias.mixins.len().saturating_sub(1) + 1
}

/// Adds what a declaration of this number declares, where the next class has that number.
fn push_declaration(
    members: &mut Items<MemberNode>,
    alloc: Global,
    program: &ProgramClasses<'_>,
    file: u32,
    next: u32,
    number: u32,
    declaration: &Declaration,
) -> Result<(), AllocError>
    ensures { OnOk result (members.new ≡ step.with_declaration program.now file next number members.old declaration.now) }
{
    match declaration {
        Declaration::Class(class) => {
            push_class(members, alloc, program, file, next, number, class)
        }
        Declaration::Alias(alias) => {
            let count = made_by_alias(alias);
            push_all_forwarded(members, alloc, program, file, next, count)
        }
        Declaration::Variables(_, variables) => {
            let variables = variables.items.as_slice();
            push_variables(members, file, None, number, None, variables)
        }
        _ => push_one(members, file, None, declared_at(number, None, 0)),
    }
}

/// The number of the next class behind a declaration, where that before it is this one.
fn next_behind(next: u32, declaration: &Declaration) -> Result<u32, AllocError>
    ensures { IfOk result (λ after. after ≡ next + spec.classes_made declaration.now) }
{
    match declaration {
        Declaration::Class(class) => one_more(behind(next, class.mixins.len())?),
        Declaration::Alias(alias) => behind(next, made_by_alias(alias)),
        _ => Ok(next),
    }
}

/// Adds what the declarations of a file declare. Gives the number of the next class behind them.
fn push_declarations(
    members: &mut Items<MemberNode>,
    alloc: Global,
    program: &ProgramClasses<'_>,
    file: u32,
    first: u32,
    declarations: &[Declaration],
) -> Result<u32, AllocError>
    ensures members { OnOk result (members.new ≡ step.with_declarations program.now file first 0 members.old declarations.now) }
    ensures next { IfOk result (λ next. next ≡ first + spec.all_made declarations.now) }
{
    let mut next = first;
    let mut number = 0;
    for declaration in declarations {
        push_declaration(members, alloc, program, file, next, number, declaration)?;
        next = next_behind(next, declaration)?;
        number = one_more(number)?;
    }
    Ok(next)
}

/// All members of a program by their numbers: those outside classes, and those of all classes.
pub fn members(alloc: Global, program: &ProgramClasses<'_>) -> Result<Items<MemberNode>, AllocError>
    ensures { IfOk result (λ members. members ≡ spec.members program.now) }
{
    let mut members = Items::new(alloc);
    let mut next = 0;
    let mut number = 0;
    for file in program.files() {
        let declarations = file.tree.declarations.as_slice();
        next = push_declarations(&mut members, alloc, program, number, next, declarations)?;
        number = one_more(number)?;
    }
    Ok(members)
}
