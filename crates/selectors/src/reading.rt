//! The names of a program, read from its files.
ghost use Rattle.std.specs.Prelude.{◌≡◌, IfOk};
ghost use Rattle.selectors.specs.Selectors as spec;
ghost use Rattle.selectors.specs.Collecting.{no_tables, with_files};

use crate::numbered::Selectors;
use crate::tables::Tables;
use dart_program::SourceFile;
use std::alloc::{AllocError, Global};

fn read(alloc: Global, files: &[SourceFile]) -> Result<Tables, AllocError>
    ensures { IfOk result (λ tables. tables ≡ with_files no_tables files.now) }
{
    let mut tables = Tables::new(alloc);
    for file in files {
        tables = tables.with_file(alloc, file)?;
    }
    Ok(tables)
}

/// The names by which members of objects are looked for in these files, by their numbers.
#[tactic(auto, using(crate::proofs::Filed::program_listed))]
pub fn selectors(alloc: Global, files: &[SourceFile]) -> Result<Selectors, AllocError>
    ensures { IfOk result (λ selectors. selectors ≡ spec.selectors files.now) }
{
    let tables = read(alloc, files)?;
    Ok(Selectors::new(tables))
}
