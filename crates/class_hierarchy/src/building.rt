//! The hierarchy of a program, where its classes break no rule.
ghost use Rattle.std.specs.Prelude.{◌≡◌, IfOk, IfErr, OnOk};
ghost use Rattle.dart_program.specs.First.{BreaksNone};
ghost use Rattle.class_heads.specs.Rules.{IsBroken};
ghost use Rattle.class_members.specs.Program.{sources};
ghost use Rattle.class_hierarchy.specs.Hierarchy.{IsHierarchy};
ghost use Rattle.class_hierarchy.specs.Resolved.{HasScopes, IsRefusalOf};

use crate::hierarchy::Hierarchy;
use crate::resolved::Resolved;
use class_heads::broken::first_broken;
use class_heads::nodes::classes;
use class_heads::written::{numbers, written};
use class_members::members::members;
use class_members::owners::find_owners;
use class_members::program::ProgramClasses;
use dart_program::{Program, Refusal, SourceFile};
use library_scopes::Scopes;
use member_tables::MemberTables;
use selectors::reading::selectors;
use std::alloc::{AllocError, Global};
use supertypes::supertypes::Supertypes;
use supertypes::upward::upward;
use thiserror::Error;

/// Why a program has no hierarchy.
#[derive(Clone, Copy, Debug, Drop, PartialEq, Eq, Error)]
pub enum ClassError {
    /// A rule of classes is broken; this is the first one.
    #[error("a rule of classes is broken")]
    Broken(Refusal),
    /// Memory was wanting, or numbers: a program can have no more than 4,294,967,295 classes, members or selectors.
    #[error("out of memory")]
    Memory,
}

impl From<AllocError> for ClassError {
    ghost use Rattle.std.specs.Prelude.{◌≡◌};
    ghost use Rattle.class_hierarchy.specs.declared.building.ClassError.TheVariants.{Memory};

    ghost from_gives = { λ _ error. error ≡ Memory };

    fn from(_error: AllocError) -> ClassError {
        ClassError::Memory
    }
}

/// The hierarchy of files whose classes break no rule.
#[tactic(auto, unfolding(class_heads::specs::Sources::classes_in))]
fn hierarchy_of(
    alloc: Global,
    files: &[SourceFile],
    scopes: &Scopes,
) -> Result<Hierarchy, AllocError>
    requires { BreaksNone (IsBroken (sources files.now scopes.now)) }
    ensures { IfOk result (IsHierarchy (sources files.now scopes.now)) }
{
    let written = written(alloc, files)?;
    let class_numbers = numbers(alloc, written.as_slice())?;
    let classes = classes(alloc, files, scopes)?;
    let order = upward(alloc, classes.as_slice())?;
    let supertypes = Supertypes::new(alloc, classes.as_slice(), order.as_slice())?;
    let selectors = selectors(alloc, files)?;
    let program = ProgramClasses::new(files, scopes, classes.as_slice(), written.as_slice());
    let members = members(alloc, &program)?;
    let owners = find_owners(alloc, &program, members.as_slice())?;
    let tables = MemberTables::new(
        alloc,
        &program,
        members.as_slice(),
        &owners,
        &selectors,
        order.as_slice(),
    )?;
    Ok(Hierarchy {
        classes,
        class_numbers,
        members,
        owners,
        selectors,
        supertypes,
        tables,
    })
}

/// A program with its hierarchy, where its classes break no rule; else the first rule that they break. The scopes are
/// those that `resolve` gives for this program.
pub fn build(alloc: Global, program: Program, scopes: Scopes) -> Result<Resolved, ClassError>
    requires { HasScopes (sources program scopes) }
    ensures resolved { IfOk result (λ resolved. resolved ≡ sources program scopes) }
    ensures valid { OnOk result (BreaksNone (IsBroken (sources program scopes))) }
    ensures broken { IfErr result (IsRefusalOf (sources program scopes)) }
{
    let files = program.files().as_slice();
    if let Some(refusal) = first_broken(alloc, files, &scopes)? {
        return Err(ClassError::Broken(refusal));
    }
    let hierarchy = hierarchy_of(alloc, files, &scopes)?;
    Ok(Resolved::new(program, scopes, hierarchy))
}
