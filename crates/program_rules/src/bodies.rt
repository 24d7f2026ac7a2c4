//! The first rule of bodies that a program breaks.
ghost use Rattle.std.specs.Prelude.{◌≡◌, IfOk};
ghost use Rattle.dart_program.specs.First.{IsFirstOrNone};
ghost use Rattle.class_members.specs.Members.{members as spec_members};
ghost use Rattle.class_members.specs.Owners.{AreOwners};
ghost use Rattle.program_rules.specs.Bodies as spec;
ghost use Rattle.program_rules.specs.Files.{InFiles};

use class_heads::written::written;
use class_hierarchy::Resolved;
use class_members::members::MemberNode;
use class_members::owners::Owners;
use class_members::program::ProgramClasses;
use dart_grammar::declarations::FileTree;
use dart_program::first::first_of;
use dart_program::{Refusal, SourceFile};
use library_scopes::reading::one_more;
use name_meanings::Meanings;
use std::alloc::{AllocError, Global};

#[tactic(auto, using(crate::proofs::Joined::in_file))]
fn first_in_file(
    alloc: Global,
    meanings: &Meanings<'_>,
    number: u32,
    tree: &FileTree,
) -> Result<Option<Refusal>, AllocError>
    ensures { IfOk result (IsFirstOrNone (spec.InFile meanings.now number tree.now)) }
{
    let bodies = body_rules::first_in_file(alloc, number, tree)?;
    let fields = field_rules::first_in_file(alloc, number, tree)?;
    let names = name_rules::first_in_file(alloc, meanings, number, tree)?;
    Ok(first_of(first_of(bodies, fields), names))
}

fn first_in_files(
    alloc: Global,
    meanings: &Meanings<'_>,
    files: &[SourceFile],
) -> Result<Option<Refusal>, AllocError>
    ensures { IfOk result (IsFirstOrNone (InFiles (spec.InFile meanings.now) 0 files.now)) }
{
    let mut found = None;
    let mut number = 0;
    for file in files {
        let one = first_in_file(alloc, meanings, number, &file.tree)?;
        found = first_of(found, one);
        number = one_more(number)?;
    }
    Ok(found)
}

fn first_in_program(
    alloc: Global,
    program: ProgramClasses<'_>,
    members: &[MemberNode],
    owners: &Owners,
) -> Result<Option<Refusal>, AllocError>
    requires members { members.now ≡ spec_members program }
    requires owners { AreOwners program owners.now }
    ensures { IfOk result (IsFirstOrNone (spec.IsBroken program.entry)) }
{
    let files = program.files();
    let supers = super_rules::first_in_program(alloc, &program)?;
    let meanings = Meanings::new(alloc, program, members, owners)?;
    let found = first_in_files(alloc, &meanings, files)?;
    Ok(first_of(found, supers))
}

/// The first rule of bodies that a program breaks, by file, then by place, then by the number of the rule; none exactly where
/// it breaks none.
#[tactic(auto, unfolding(class_heads::specs::Sources::classes_in))]
pub fn first_broken(alloc: Global, resolved: &Resolved) -> Result<Option<Refusal>, AllocError>
    ensures { IfOk result (IsFirstOrNone (spec.IsBroken resolved.now)) }
{
    let files = resolved.program().files().as_slice();
    let hierarchy = resolved.hierarchy();
    let written = written(alloc, files)?;
    let program = ProgramClasses::new(
        files,
        resolved.scopes(),
        hierarchy.classes.as_slice(),
        written.as_slice(),
    );
    first_in_program(
        alloc,
        program,
        hierarchy.members.as_slice(),
        &hierarchy.owners,
    )
}
