//! The libraries of a program, where they break no rule.
ghost use Rattle.std.specs.Prelude.{◌≡◌, None, IfOk, IfErr, OnOk};
ghost use Rattle.dart_program.specs.First.{BreaksNone};
ghost use Rattle.library_scopes.specs.Libraries.{scopes_of};
ghost use Rattle.library_scopes.specs.Rules.{IsBroken};
ghost use Rattle.library_scopes.specs.First as spec;

use crate::ambiguous::ambiguous;
use crate::doubles::double;
use crate::entry::entry_fault;
use crate::libraries::{Library, Scopes};
use crate::reading::{one_more, read};
use crate::reuses::reused;
use dart_grammar::declarations::FileTree;
use dart_program::{Program, Refusal, Rule, SourceFile};
use std::alloc::{AllocError, Global};
use thiserror::Error;

/// Why a program has no scopes.
#[derive(Clone, Copy, Debug, Drop, PartialEq, Eq, Error)]
pub enum ScopeError {
    /// A rule of libraries is broken; this is the first one.
    #[error("a rule of libraries is broken")]
    Broken(Refusal),
    /// Memory was wanting, or numbers: a program can have no more than 4,294,967,295 files, classes, members outside
    /// classes, prefixes or deferred imports.
    #[error("out of memory")]
    Memory,
}

impl From<AllocError> for ScopeError {
    ghost use Rattle.std.specs.Prelude.{◌≡◌};
    ghost use Rattle.library_scopes.specs.declared.resolving.ScopeError.TheVariants.{Memory};

    ghost from_gives = { λ _ error. error ≡ Memory };

    fn from(_error: AllocError) -> ScopeError {
        ScopeError::Memory
    }
}

/// The place at which this rule is broken, if any, unless what is broken of later rules comes first.
fn sooner(rule: Rule, file: u32, place: Option<u32>, later: Option<Refusal>) -> Option<Refusal>
    ensures { result ≡ spec.sooner rule file place later }
{
    match (place, later) {
        (None, later) => later,
        (Some(at), Some(later)) if later.at < at => Some(later),
        (Some(at), _) => Some(Refusal { rule, file, at }),
    }
}

/// The first broken rule of a file.
#[tactic(auto, unfolding(crate::specs::First::first_in))]
fn fault_in(
    alloc: Global,
    scopes: &Scopes,
    number: u32,
    library: &Library,
    file: &FileTree,
) -> Result<Option<Refusal>, AllocError>
    ensures { IfOk result (λ fault. fault ≡ spec.first_in scopes.now number library.now file.now) }
{
    let double = double(alloc, file)?;
    let reused = reused(alloc, file)?;
    let entry = entry_fault(number, file);
    let ambiguous = ambiguous(alloc, scopes, library, file)?;
    let fault = sooner(Rule::L4, number, ambiguous, None);
    let fault = sooner(Rule::L3, number, entry, fault);
    let fault = sooner(Rule::L2, number, reused, fault);
    Ok(sooner(Rule::L1, number, double, fault))
}

/// The first broken rule.
fn first_fault(
    alloc: Global,
    scopes: &Scopes,
    files: &[SourceFile],
) -> Result<Option<Refusal>, AllocError>
    ensures { IfOk result (λ fault. fault ≡ spec.first_from scopes.now 0 scopes.now.libraries files.now) }
{
    let mut number = 0;
    let mut rest = files;
    for library in scopes.libraries.as_slice() {
        match rest.split_first() {
            Some((file, more)) => {
                let fault = fault_in(alloc, scopes, number, library, &file.tree)?;
                if fault.is_some() {
                    return Ok(fault);
                }
                number = one_more(number)?;
                rest = more;
            }
            None => return Ok(None),
        }
    }
    Ok(None)
}

/// The libraries of a program and what names mean in them, where they break no rule.
#[tactic(auto, using(crate::proofs::Firsts::found_is_first, crate::proofs::Firsts::none_found))]
pub fn resolve(alloc: Global, program: &Program) -> Result<Scopes, ScopeError>
    ensures scopes { IfOk result (λ scopes. scopes ≡ scopes_of program.now) }
    ensures valid { OnOk result (BreaksNone (IsBroken program.now)) }
    ensures broken { IfErr result (spec.IsRefusalOf program.now) }
{
    let files = program.files().as_slice();
    let scopes = read(alloc, files)?;
    match first_fault(alloc, &scopes, files)? {
        Some(refusal) => Err(ScopeError::Broken(refusal)),
        None => Ok(scopes),
    }
}
