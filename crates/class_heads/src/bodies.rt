//! What rules of classes ask of the bodies of classes.
ghost use Rattle.std.specs.Prelude.{◌≡◌, map, Some, IfOk};
ghost use Rattle.std.specs.Option.{option_copied};
ghost use Rattle.class_heads.specs.Bodies as bodies;
ghost use Rattle.class_heads.specs.Faults as spec;
ghost use Rattle.class_heads.specs.Rules as rules;

use crate::nodes::ClassNode;
use crate::written::WrittenClass;
use dart_grammar::declarations::{Class, Member};
use dart_sites::surroundings::Owner;
use dart_sites::{Site, Surroundings, Visitor, visit_class};
use sqlite_items::{Items, at};
use std::alloc::{AllocError, Global};

/// What a rule asks of a body: whether it has a constructor, a field of objects, `super`.
#[derive(Clone, Copy, Debug, PartialEq, Eq)]
pub struct BodyFacts {
    pub constructs: bool,
    pub holds_fields: bool,
    pub asks_super: bool,
}

/// Of a class without a body.
pub const NO_BODY: BodyFacts = BodyFacts {
    constructs: false,
    holds_fields: false,
    asks_super: false,
};

fn with_body<'a>(class: &Owner<'a>) -> Option<&'a Class>
    ensures { option_copied result ≡ bodies.with_body class.now }
{
    match class {
        Owner::Class(class) => Some(class.get()),
        Owner::Alias(_) => None,
    }
}

/// What is written of a class, where it has a name and a body.
pub fn class_of<'a>(written: &[WrittenClass<'a>], class: &ClassNode) -> Option<&'a Class>
    ensures { option_copied result ≡ bodies.class_of_node written.now class.now }
{
    with_body(&at(written, class.written? as usize)?.class)
}

fn is_constructor(member: &Member) -> bool
    ensures { result ≡ rules.is_constructor member.now }
{
    matches!(member, Member::Constructor(_))
}

fn is_instance_fields(member: &Member) -> bool
    ensures { result ≡ rules.is_instance_fields member.now }
{
    match member {
        Member::Fields(is_static, _, _) => !*is_static,
        _ => false,
    }
}

fn constructs(class: &Class) -> bool
    ensures { result ≡ rules.constructs class.now }
{
    class
        .members
        .as_slice()
        .iter()
        .any(|member| is_constructor(member))
}

fn holds_fields(class: &Class) -> bool
    ensures { result ≡ rules.holds_fields class.now }
{
    class
        .members
        .as_slice()
        .iter()
        .any(|member| is_instance_fields(member))
}

// ---- `super`

fn names_super(site: &Site<'_>) -> bool
    ensures { result ≡ rules.names_super site.now }
{
    match site {
        Site::Super(_) => true,
        Site::SuperInitialiser(_, _, _, _) => true,
        Site::Operated(_, _, on_super) => *on_super,
        _ => false,
    }
}

/// Whether `super` was seen.
#[derive(Drop)]
pub struct SuperSearch {
    pub is_found: bool,
}

impl Visitor for SuperSearch {
    ghost step = { spec.super_seen };

    fn visit(
        &mut self,
        _surroundings: &Surroundings<'_, '_>,
        site: &Site<'_>,
    ) -> Result<(), AllocError> {
        self.is_found = self.is_found || names_super(site);
        Ok(())
    }
}

#[tactic(auto, using(crate::proofs::Supers::super_is_found))]
fn asks_super(alloc: Global, class: &Class) -> Result<bool, AllocError>
    ensures { IfOk result (λ asks. asks ≡ rules.asks_super class.now) }
{
    let search = visit_class(alloc, class, SuperSearch { is_found: false })?;
    Ok(search.is_found)
}

// ---- all classes

fn facts_in(alloc: Global, class: &Class) -> Result<BodyFacts, AllocError>
    ensures { IfOk result (λ facts. facts ≡ spec.facts_of (Some class.now)) }
{
    Ok(BodyFacts {
        constructs: constructs(class),
        holds_fields: holds_fields(class),
        asks_super: asks_super(alloc, class)?,
    })
}

fn node_facts(
    alloc: Global,
    written: &[WrittenClass<'_>],
    class: &ClassNode,
) -> Result<BodyFacts, AllocError>
    ensures { IfOk result (λ facts. facts ≡ spec.node_facts written.now class.now) }
{
    match class_of(written, class) {
        Some(body) => facts_in(alloc, body),
        None => Ok(NO_BODY),
    }
}

/// What rules ask of the body of each class, by its number. Takes time in the size of all bodies.
pub fn body_facts(
    alloc: Global,
    written: &[WrittenClass<'_>],
    classes: &[ClassNode],
) -> Result<Items<BodyFacts>, AllocError>
    ensures { IfOk result (λ facts. facts ≡ map (spec.node_facts written.now) classes.now) }
{
    let mut facts = Items::new(alloc);
    for class in classes {
        facts.push(node_facts(alloc, written, class)?)?;
    }
    Ok(facts)
}
