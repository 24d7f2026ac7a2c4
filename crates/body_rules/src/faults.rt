//! The first broken rule, with those that a place breaks.
ghost use Rattle.std.specs.Prelude.{◌≡◌};
ghost use Rattle.dart_program.specs.Sooner.{first_with};
ghost use Rattle.body_rules.specs.Rules as spec;

use crate::blocks::{doubled_at, early_at};
use crate::constructors::super_call_at;
use crate::declarations::declared_at;
use crate::jumps::{break_at, continue_at, rethrow_at, return_at, super_at, this_at};
use crate::lists::listed_at;
use dart_program::first::sooner;
use dart_program::{Refusal, Rule};
use dart_sites::{Site, Surroundings};

fn with_fault(found: Option<Refusal>, rule: Rule, file: u32, place: Option<u32>) -> Option<Refusal>
    ensures { result ≡ first_with found (spec.fault rule file place) }
{
    match place {
        Some(at) => sooner(found, Refusal { rule, file, at }),
        None => found,
    }
}

/// The first of the broken rule that was found before, if any, and of those of this crate that are broken at a site of this file.
/// Takes no memory. A name takes time linear in the number of scopes around it, however many names they have, and a super call
/// that stands last in the number of initialisers.
#[tactic(auto, unfolding(crate::specs::Rules::faults_at))]
pub fn with_faults(
    found: Option<Refusal>,
    file: u32,
    around: &Surroundings<'_, '_>,
    site: &Site<'_>,
) -> Option<Refusal>
    ensures { result ≡ first_with found (spec.faults_at file around.now site.now) }
{
    let found = with_fault(found, Rule::B1, file, doubled_at(around, site));
    let found = with_fault(found, Rule::B2, file, early_at(around, site));
    let found = with_fault(found, Rule::B3, file, break_at(around, site));
    let found = with_fault(found, Rule::B4, file, continue_at(around, site));
    let found = with_fault(found, Rule::B5, file, this_at(around, site));
    let found = with_fault(found, Rule::B6, file, super_at(around, site));
    let found = with_fault(found, Rule::B7, file, return_at(around, site));
    let found = with_fault(found, Rule::B8, file, rethrow_at(around, site));
    let found = with_fault(found, Rule::B10, file, super_call_at(around, site));
    let found = with_fault(found, Rule::B12, file, declared_at(around, site));
    with_fault(found, Rule::B14, file, listed_at(site))
}
