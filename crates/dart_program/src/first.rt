//! The first of some refusals.
ghost use Rattle.std.specs.Prelude.{◌≡◌};
ghost use Rattle.dart_program.specs.First as first;
ghost use Rattle.dart_program.specs.Sooner as spec;

use crate::{Refusal, Rule};

/// The number of the phase in which this rule is looked for: files, libraries, classes, limits, bodies.
fn phase_of(rule: Rule) -> u32
    ensures { result ≡ first.phase_of rule }
{
    match rule {
        Rule::U1
        | Rule::N1
        | Rule::N2
        | Rule::N3
        | Rule::S1
        | Rule::S2
        | Rule::S3
        | Rule::S4
        | Rule::S5
        | Rule::S6
        | Rule::S7
        | Rule::G2
        | Rule::G1 => 0,
        Rule::L1 | Rule::L2 | Rule::L3 | Rule::L4 => 1,
        Rule::C1 | Rule::C2 | Rule::C3 | Rule::C4 | Rule::C5 => 2,
        Rule::N4 | Rule::N5 | Rule::N6 | Rule::N7 | Rule::N8 => 3,
        Rule::B1
        | Rule::B2
        | Rule::B3
        | Rule::B4
        | Rule::B5
        | Rule::B6
        | Rule::B7
        | Rule::B8
        | Rule::B9
        | Rule::B10
        | Rule::B11
        | Rule::B12
        | Rule::B13
        | Rule::B14 => 4,
    }
}

/// The number of a rule in its phase.
fn number_of(rule: Rule) -> u32
    ensures { result ≡ first.number_of rule }
{
    match rule {
        Rule::U1 | Rule::L1 | Rule::C1 | Rule::B1 => 1,
        Rule::N1 | Rule::L2 | Rule::C2 | Rule::B2 => 2,
        Rule::N2 | Rule::L3 | Rule::C3 | Rule::B3 => 3,
        Rule::N3 | Rule::L4 | Rule::C4 | Rule::N4 | Rule::B4 => 4,
        Rule::S1 | Rule::C5 | Rule::N5 | Rule::B5 => 5,
        Rule::S2 | Rule::N6 | Rule::B6 => 6,
        Rule::S3 | Rule::N7 | Rule::B7 => 7,
        Rule::S4 | Rule::N8 | Rule::B8 => 8,
        Rule::S5 | Rule::B9 => 9,
        Rule::S6 | Rule::B10 => 10,
        Rule::S7 | Rule::B11 => 11,
        Rule::G2 | Rule::B12 => 12,
        Rule::G1 | Rule::B13 => 13,
        Rule::B14 => 14,
    }
}

fn is_below_or(one: u32, other: u32, holds: bool) -> bool
    ensures { result ≡ spec.is_below_or one other holds }
{
    one < other || (one == other && holds)
}

/// Whether one refusal comes before another, or is at the same rule and place: by phase, then by file, then by place, then by the
/// number of the rule.
pub fn comes_first(one: &Refusal, other: &Refusal) -> bool
    ensures { result ≡ spec.comes_first one.now other.now }
{
    let by_number = number_of(one.rule) <= number_of(other.rule);
    let by_place = is_below_or(one.at, other.at, by_number);
    let by_file = is_below_or(one.file, other.file, by_place);
    is_below_or(phase_of(one.rule), phase_of(other.rule), by_file)
}

/// The first of the one that was found before, if any, and this one.
pub fn sooner(found: Option<Refusal>, refusal: Refusal) -> Option<Refusal>
    ensures { result ≡ spec.sooner found refusal }
{
    match found {
        Some(found) if comes_first(&found, &refusal) => Some(found),
        _ => Some(refusal),
    }
}

/// The first of two that may be there.
pub fn first_of(one: Option<Refusal>, other: Option<Refusal>) -> Option<Refusal>
    ensures { result ≡ spec.first_of one other }
{
    match other {
        Some(refusal) => sooner(one, refusal),
        None => one,
    }
}
