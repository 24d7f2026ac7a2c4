//! Whole programs.
ghost use Rattle.std.specs.Prelude.{◌≡◌};
ghost use Rattle.source_loading.specs.Tells.{LoadTells, LoadCause};

use crate::first::prelude_file;
use crate::loading::load_files;
use code_units::Text;
use dart_program::Program;
use dart_syntax::Refusal;
use outside::Source;
use std::alloc::{AllocError, Global};
use thiserror::Error;

/// Why no program is loaded.
#[derive(Debug, Drop, Error)]
pub enum LoadFault {
    /// The first rule that is broken, and the name of the file in which it is. The word of the entry stands for its name
    /// where a `..` in it has nothing to remove.
    #[error("{refusal:?}")]
    Refused { refusal: Refusal, name: Text },
    /// The read of the file of this name failed.
    #[error("a read failed")]
    ReadFault { name: Text },
    /// Memory was wanting.
    #[error("out of memory")]
    Memory,
}

impl From<AllocError> for LoadFault {
    ghost use Rattle.std.specs.Prelude.{◌≡◌};
    ghost use Rattle.source_loading.specs.declared.programs.LoadFault.TheVariants.{Memory};

    ghost from_gives = { λ _ fault. fault ≡ Memory };

    fn from(_: AllocError) -> LoadFault {
        LoadFault::Memory
    }
}

/// Loads the program that begins with this entry: file after file, each with what it imports, as far as no rule is broken.
///
/// No file is read twice, and none behind the first rule that is broken.
///
/// Errors: [`LoadFault::Refused`] with the first rule that is broken; [`LoadFault::ReadFault`] where the source failed, with
/// the name of the file that was being read; [`LoadFault::Memory`].
pub fn load<S: Source>(alloc: Global, source: &mut S, entry: &Text) -> Result<Program, LoadFault>
    ensures unchanged { S.files source.new ≡ S.files source.old }
    ensures told { LoadTells (S.files source.old) entry.now result }
    ensures cause { LoadCause (S.faults source.old) (S.faults source.new) result }
{
    let prelude = prelude_file(alloc)?;
    let loading = load_files(alloc, source, entry)?;
    let files = loading.into_files(alloc, prelude)?;
    Ok(Program::new(files))
}
