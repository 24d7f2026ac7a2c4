//! The first place at which a file breaks the rule.
ghost use Rattle.std.specs.Prelude.{◌≡◌, IfOk};
ghost use Rattle.std.specs.List.{flat_map};
ghost use Rattle.dart_program.specs.First.{IsFirstOrNone};
ghost use Rattle.dart_program.specs.Sooner.{first_with};
ghost use Rattle.field_rules.specs.Fields as spec_of;
ghost use Rattle.field_rules.specs.Rules as spec;
ghost use Rattle.field_rules.specs.Steps.{searched};

use crate::fields::fields_of;
use crate::settings::with_constructor;
use dart_grammar::declarations::{Class, Declaration, FileTree, Member};
use dart_program::first::sooner;
use dart_program::{Refusal, Rule};
use dart_sites::surroundings::Within;
use dart_sites::{Site, Surroundings, Visitor, visit_file};
use library_scopes::names::NameSet;
use std::alloc::{AllocError, Global};

fn with_member(
    alloc: Global,
    found: Option<Refusal>,
    file: u32,
    fields: &NameSet,
    member: &Member,
) -> Result<Option<Refusal>, AllocError>
    ensures { IfOk result (λ first. first ≡ first_with found (spec.faults file (spec_of.wrong_in_member fields.now member.now))) }
{
    match member {
        Member::Constructor(constructor) => {
            with_constructor(alloc, found, file, fields, constructor)
        }
        _ => Ok(found),
    }
}

fn with_members(
    alloc: Global,
    found: Option<Refusal>,
    file: u32,
    fields: &NameSet,
    members: &[Member],
) -> Result<Option<Refusal>, AllocError>
    ensures { IfOk result (λ first. first ≡ first_with found (flat_map (λ x. spec.faults file (spec_of.wrong_in_member fields.now x)) members.now)) }
{
    let mut first = found;
    for member in members {
        first = with_member(alloc, first, file, fields, member)?;
    }
    Ok(first)
}

#[tactic(auto, using(crate::proofs::Sets::by_set))]
fn with_class(
    alloc: Global,
    found: Option<Refusal>,
    file: u32,
    class: &Class,
) -> Result<Option<Refusal>, AllocError>
    ensures { IfOk result (λ first. first ≡ first_with found (spec.class_faults file class.now)) }
{
    let fields = fields_of(alloc, class)?;
    with_members(alloc, found, file, &fields, class.members.as_slice())
}

fn with_declaration(
    alloc: Global,
    found: Option<Refusal>,
    file: u32,
    declaration: &Declaration,
) -> Result<Option<Refusal>, AllocError>
    ensures { IfOk result (λ first. first ≡ first_with found (spec.set_faults file declaration.now)) }
{
    match declaration {
        Declaration::Class(class) => with_class(alloc, found, file, class),
        _ => Ok(found),
    }
}

fn with_declarations(
    alloc: Global,
    found: Option<Refusal>,
    file: u32,
    declarations: &[Declaration],
) -> Result<Option<Refusal>, AllocError>
    ensures { IfOk result (λ first. first ≡ first_with found (flat_map (spec.set_faults file) declarations.now)) }
{
    let mut first = found;
    for declaration in declarations {
        first = with_declaration(alloc, first, file, declaration)?;
    }
    Ok(first)
}

fn is_head(within: &Within<'_>) -> bool
    ensures { result ≡ spec_of.is_head within.now }
{
    matches!(within, Within::ConstructorHead(_))
}

/// `this.name` among parameters that are no constructor's.
pub fn stray_at(around: &Surroundings<'_, '_>, site: &Site<'_>) -> Option<u32>
    ensures { result ≡ spec_of.stray_at around.now site.now }
{
    match site {
        Site::FieldParameter(span, _) => {
            (around.in_function || !is_head(around.within.get())).then_some(span.from)
        }
        _ => None,
    }
}

/// The number of a file, and the first broken rule of its sites so far.
#[derive(Drop)]
pub struct Search {
    pub number: u32,
    pub first: Option<Refusal>,
}

impl Visitor for Search {
    ghost step = { searched };

    fn visit(
        &mut self,
        surroundings: &Surroundings<'_, '_>,
        site: &Site<'_>,
    ) -> Result<(), AllocError> {
        if let Some(at) = stray_at(surroundings, site) {
            let refusal = Refusal {
                rule: Rule::B9,
                file: self.number,
                at,
            };
            self.first = sooner(self.first, refusal);
        }
        Ok(())
    }
}

/// The first place at which a file breaks the rule of fields: a constructor sets, by an initialiser or by `this.name` among its
/// parameters, what is no field of its class or what it has set before; or `this.name` stands among parameters that are no
/// constructor's. None exactly where the file keeps it.
#[tactic(auto, using(crate::proofs::Laws::first_in_file_is))]
pub fn first_in_file(
    alloc: Global,
    number: u32,
    tree: &FileTree,
) -> Result<Option<Refusal>, AllocError>
    ensures { IfOk result (IsFirstOrNone (spec.IsBroken number tree.now)) }
{
    let first = with_declarations(alloc, None, number, tree.declarations.as_slice())?;
    let search = visit_file(alloc, tree, Search { number, first })?;
    Ok(search.first)
}
