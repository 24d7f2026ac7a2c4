//! The first rule of classes that a program breaks.
ghost use Rattle.std.specs.Prelude.{◌≡◌, IfOk};
ghost use Rattle.class_heads.specs.First as spec;

use crate::bodies::body_facts;
use crate::cycles::cycles;
use crate::known::Known;
use crate::naming::{Naming, object_number};
use crate::nodes::classes;
use crate::written::{numbers, written};
use dart_program::{Refusal, SourceFile};
use dart_sites::lent::{Lent, LentSlice};
use library_scopes::Scopes;
use std::alloc::{AllocError, Global};

/// The first rule of classes that these files break, where these scopes tell what names mean; none exactly where they break none.
#[tactic(auto, unfolding(crate::specs::Sources::classes_in, crate::specs::Written::class_numbers), using(crate::proofs::Breaks::first_is))]
pub fn first_broken(
    alloc: Global,
    files: &[SourceFile],
    scopes: &Scopes,
) -> Result<Option<Refusal>, AllocError>
    ensures { IfOk result (spec.IsFirstOrNone (record { files = files.now; scopes = scopes.now })) }
{
    let written = written(alloc, files)?;
    let numbers = numbers(alloc, written.as_slice())?;
    let classes = classes(alloc, files, scopes)?;
    let bodies = body_facts(alloc, written.as_slice(), classes.as_slice())?;
    let cycles = cycles(alloc, classes.as_slice())?;
    let known = Known {
        naming: Naming {
            scopes: Lent::new(scopes),
            numbers: LentSlice::new(numbers.as_slice()),
            object: object_number(alloc, scopes, numbers.as_slice())?,
        },
        classes: LentSlice::new(classes.as_slice()),
        bodies: LentSlice::new(bodies.as_slice()),
        cycles: LentSlice::new(cycles.as_slice()),
    };
    known.first_fault(written.as_slice())
}
