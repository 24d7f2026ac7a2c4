// What no clause says: that the calls succeed with ample memory. The names by example stand in the proofs.
ghost use Rattle.std.specs.Prelude.{◌≡◌, [], IfOk};
ghost use Rattle.dart_program.specs.Programs.{IsProgram};

use crate::files::{FileList, Program, SourceFile};
use crate::paths::{entry_name, is_core, named_from};
use crate::{Refusal, Rule, laws};
use code_units::{NumberList, Text};
use dart_grammar::FileTree;
use sqlite_items::Items;
use std::alloc::{AllocError, Global};
use std::test::Fail;

// Whether the import of the file means the file of that name.
fn names(alloc: Global, file: &str, uri: &str, wanted: &str) -> Result<bool, AllocError> {
    let file = Text::from_str(alloc, file)?;
    let uri = Text::from_str(alloc, uri)?;
    match named_from(alloc, &file, &uri)? {
        Some(name) => Ok(name.is(wanted)),
        None => Ok(false),
    }
}

#[test]
fn imports_name_files(rt: HostRuntime) -> Result<(), Fail> {
    assert!(rt; names(rt.alloc(), "a/b.dart", "./d//../c.dart", "a/c.dart")?);
    assert!(rt; names(rt.alloc(), "/a/b.dart", "c.dart", "/a/c.dart")?);
    assert!(rt; names(rt.alloc(), "a/b.dart", "/c.dart", "/c.dart")?);
    assert!(rt; !names(rt.alloc(), "a/b.dart", "../../c.dart", "c.dart")?);
    Ok(())
}

#[test]
fn words_name_entries(rt: HostRuntime) -> Result<(), Fail> {
    let name = entry_name(rt.alloc(), "./a.dart")?;
    assert!(rt; matches!(&name, Some(name) if name.is("a.dart")));
    Ok(())
}

#[test]
fn two_names_mean_the_prelude(rt: HostRuntime) -> Result<(), Fail> {
    let uri = Text::from_str(rt.alloc(), "dart:async")?;
    assert!(rt; is_core(&uri));
    Ok(())
}

// A file that declares nothing.
fn empty_file(alloc: Global, name: &str) -> Result<SourceFile, AllocError>
    ensures { IfOk result (λ file. (file.links ≡ []) × (file.tree.imports ≡ [])) }
{
    Ok(SourceFile {
        name: Text::from_str(alloc, name)?,
        tree: FileTree {
            imports: Items::new(alloc),
            declarations: Items::new(alloc),
        },
        links: NumberList::new(alloc),
    })
}

#[tactic(auto, using(crate::proofs::Small::two_are_a_program))]
fn two_files(alloc: Global) -> Result<FileList, AllocError>
    ensures { IfOk result (λ files. IsProgram files) }
{
    let first = empty_file(alloc, "dart:core")?;
    let second = empty_file(alloc, "a.dart")?;
    let mut files = FileList::new(alloc);
    files.push(first)?;
    files.push(second)?;
    Ok(files)
}

#[test]
fn a_program_keeps_its_files(rt: HostRuntime) -> Result<(), Fail> {
    let program = Program::new(two_files(rt.alloc())?);
    assert_eq!(rt; program.files().len(), 2);
    assert!(rt; program.files().get(1).name.is("a.dart"));
    Ok(())
}

#[test]
fn a_refusal_has_a_rule_and_a_place(rt: HostRuntime) -> Result<(), Fail> {
    let refusal = Refusal {
        rule: Rule::L3,
        file: 1,
        at: 0,
    };
    assert_eq!(rt; refusal.rule.name(), "L3");
    Ok(())
}

#[test]
fn laws_do_nothing() {
    laws::loaded_are_programs();
}
