//! The first call of a program that the superclass does not take.
ghost use Rattle.std.specs.Prelude.{◌≡◌, None, IfOk};
ghost use Rattle.std.specs.List.{flat_map};
ghost use Rattle.dart_program.specs.First.{IsFirstOrNone};
ghost use Rattle.dart_program.specs.Sooner.{first_with};
ghost use Rattle.super_rules.specs.Rules.{IsBroken};
ghost use Rattle.super_rules.specs.Tables as spec;

use crate::above::{Above, above_base, all_names};
use crate::calls::{SuperCall, calls};
use class_heads::origins::superclass_of;
use class_heads::written::{WrittenClass, numbers};
use class_members::program::ProgramClasses;
use dart_grammar::declarations::Class;
use dart_program::first::sooner;
use dart_program::{Refusal, Rule};
use dart_sites::surroundings::Owner;
use selectors::numbers::Numbers;
use sqlite_items::at;
use std::alloc::{AllocError, Global};

fn takes(from: u32, above: &Option<Above<'_>>, call: &SuperCall<'_>) -> bool
    ensures { result ≡ spec.takes_by from above.now call.now }
{
    match above {
        Some(above) => above.takes(from, call),
        None => false,
    }
}

fn with_call(
    found: Option<Refusal>,
    file: u32,
    above: &Option<Above<'_>>,
    call: &SuperCall<'_>,
) -> Option<Refusal>
    ensures { result ≡ first_with found (spec.call_faults_by file above.now call.now) }
{
    if takes(file, above, call) {
        return found;
    }
    let refusal = Refusal {
        rule: Rule::B11,
        file,
        at: call.at,
    };
    sooner(found, refusal)
}

fn with_calls(
    found: Option<Refusal>,
    file: u32,
    above: &Option<Above<'_>>,
    calls: &[SuperCall<'_>],
) -> Option<Refusal>
    ensures { result ≡ first_with found (flat_map (spec.call_faults_by file above.now) calls.now) }
{
    let mut first = found;
    for call in calls {
        first = with_call(first, file, above, call);
    }
    first
}

fn with_body(
    alloc: Global,
    found: Option<Refusal>,
    program: &ProgramClasses<'_>,
    tables: &[Numbers],
    file: u32,
    class: &Class,
    superclass: Option<u32>,
) -> Result<Option<Refusal>, AllocError>
    ensures { IfOk result (λ first. first ≡ first_with found (spec.body_faults_by program.now tables.now file class.now superclass)) }
{
    match superclass {
        Some(superclass) => {
            let above = above_base(program, tables, superclass);
            let calls = calls(alloc, file, class)?;
            Ok(with_calls(found, file, &above, calls.as_slice()))
        }
        None => Ok(found),
    }
}

fn superclass_by(
    program: &ProgramClasses<'_>,
    numbers: &[u32],
    written: &WrittenClass<'_>,
) -> Option<u32>
    ensures { result ≡ spec.superclass_by program.now numbers.now written.now }
{
    let own = at(numbers, written.number as usize)?;
    superclass_of(program.classes(), *own)
}

fn with_class(
    alloc: Global,
    found: Option<Refusal>,
    program: &ProgramClasses<'_>,
    tables: &[Numbers],
    numbers: &[u32],
    written: &WrittenClass<'_>,
) -> Result<Option<Refusal>, AllocError>
    ensures { IfOk result (λ first. first ≡ first_with found (spec.class_faults_by program.now tables.now numbers.now written.now)) }
{
    match &written.class {
        Owner::Class(class) => {
            let superclass = superclass_by(program, numbers, written);
            with_body(
                alloc,
                found,
                program,
                tables,
                written.file,
                class.get(),
                superclass,
            )
        }
        Owner::Alias(_) => Ok(found),
    }
}

fn with_classes(
    alloc: Global,
    program: &ProgramClasses<'_>,
    tables: &[Numbers],
    numbers: &[u32],
    classes: &[WrittenClass<'_>],
) -> Result<Option<Refusal>, AllocError>
    ensures { IfOk result (λ first. first ≡ first_with None (flat_map (spec.class_faults_by program.now tables.now numbers.now) classes.now)) }
{
    let mut first = None;
    for written in classes {
        first = with_class(alloc, first, program, tables, numbers, written)?;
    }
    Ok(first)
}

/// The first call of a constructor of the superclass, written or not, that no constructor of the superclass takes, by its name
/// and the number of arguments; none exactly where each one is taken. Takes expected time linear in the members of classes,
/// but for the ways from superclasses with mixins up to the first class that has none, which are gone anew for each class.
#[tactic(auto, using(crate::proofs::Laws::first_in_program_is))]
pub fn first_in_program(
    alloc: Global,
    program: &ProgramClasses<'_>,
) -> Result<Option<Refusal>, AllocError>
    ensures { IfOk result (IsFirstOrNone (IsBroken program.now)) }
{
    let numbers = numbers(alloc, program.written())?;
    let tables = all_names(alloc, program)?;
    with_classes(
        alloc,
        program,
        tables.as_slice(),
        numbers.as_slice(),
        program.written(),
    )
}
