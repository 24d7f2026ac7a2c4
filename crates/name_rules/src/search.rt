//! The first place at which a file breaks the rule.
ghost use Rattle.std.specs.Prelude.{◌≡◌, IfOk};
ghost use Rattle.dart_program.specs.First.{IsFirstOrNone};
ghost use Rattle.dart_program.specs.Sooner.{first_with};
ghost use Rattle.body_rules.specs.Rules.{fault};
ghost use Rattle.dart_syntax.specs.declared.rules.Rule.TheVariants.{B13};
ghost use Rattle.name_rules.specs.Rules as spec;
ghost use Rattle.name_rules.specs.Search.{searched};

use crate::uses::{misused_at, read_wrongly_at, tested_at};
use dart_grammar::declarations::FileTree;
use dart_program::first::sooner;
use dart_program::{Refusal, Rule};
use dart_sites::lent::Lent;
use dart_sites::{Site, Surroundings, Visitor, visit_file};
use name_meanings::Meanings;
use std::alloc::{AllocError, Global};

fn with_fault(found: Option<Refusal>, file: u32, place: Option<u32>) -> Option<Refusal>
    ensures { result ≡ first_with found (fault B13 file place) }
{
    match place {
        Some(at) => sooner(
            found,
            Refusal {
                rule: Rule::B13,
                file,
                at,
            },
        ),
        None => found,
    }
}

#[tactic(auto, unfolding(crate::specs::Rules::faults_at), using(crate::proofs::Laws::three_joined))]
fn with_faults(
    found: Option<Refusal>,
    meanings: &Meanings<'_>,
    file: u32,
    around: &Surroundings<'_, '_>,
    site: &Site<'_>,
) -> Option<Refusal>
    ensures { result ≡ first_with found (spec.faults_at meanings.now file around.now site.now) }
{
    let found = with_fault(found, file, misused_at(meanings, file, around, site));
    let found = with_fault(found, file, tested_at(meanings, file, around, site));
    with_fault(found, file, read_wrongly_at(meanings, file, around, site))
}

/// What names mean, the number of a file, and the first broken rule of its sites so far.
#[derive(Drop)]
pub struct Search<'m, 'a> {
    pub meanings: Lent<'m, Meanings<'a>>,
    pub number: u32,
    pub first: Option<Refusal>,
}

impl<'m, 'a> Visitor for Search<'m, 'a> {
    ghost step = { searched };

    fn visit(
        &mut self,
        surroundings: &Surroundings<'_, '_>,
        site: &Site<'_>,
    ) -> Result<(), AllocError> {
        self.first = with_faults(
            self.first,
            self.meanings.get(),
            self.number,
            surroundings,
            site,
        );
        Ok(())
    }
}

/// The first place at which a file breaks the rule of names: a prefix that no dot stands behind, a class or a type parameter in
/// the place of a value, a type behind `is`, `as` or `on` that is no class and not `dynamic` or that a deferred prefix stands
/// before, and `loadLibrary` of a deferred prefix or `.call` that is read and not called. None exactly where the file keeps it.
#[tactic(auto, using(crate::proofs::Laws::first_in_file_is))]
pub fn first_in_file(
    alloc: Global,
    meanings: &Meanings<'_>,
    number: u32,
    tree: &FileTree,
) -> Result<Option<Refusal>, AllocError>
    ensures { IfOk result (IsFirstOrNone (spec.IsBroken meanings.now number tree.now)) }
{
    let search = Search {
        meanings: Lent::new(meanings),
        number,
        first: None,
    };
    let search = visit_file(alloc, tree, search)?;
    Ok(search.first)
}
