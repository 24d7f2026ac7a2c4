//! What the supertypes in heads mean, in numbers of classes.
ghost use Rattle.std.specs.Prelude.{◌≡◌, slice_get, option_and_then, IfOk};
ghost use Rattle.class_heads.specs.Heads as spec;

use crate::heads::{class_meant, class_named};
use crate::written::WrittenClass;
use code_units::Text;
use dart_grammar::trees::Name;
use dart_sites::lent::{Lent, LentSlice};
use library_scopes::{Named, Scopes};
use std::alloc::{AllocError, Global};

// `Object`
const OBJECT: [u16; 6] = [79, 98, 106, 101, 99, 116];

/// What names mean, the number of each written class, and the number of Object.
#[derive(Drop)]
pub struct Naming<'a> {
    pub scopes: Lent<'a, Scopes>,
    pub numbers: LentSlice<'a, u32>,
    pub object: Option<u32>,
}

fn number_at(numbers: &[u32], written: u32) -> Option<u32>
    ensures { result ≡ slice_get numbers.now written }
{
    numbers.get(written as usize).copied()
}

/// The number of the class Object of the prelude.
#[tactic(auto, unfolding(crate::specs::Heads::object_number))]
pub fn object_number(
    alloc: Global,
    scopes: &Scopes,
    numbers: &[u32],
) -> Result<Option<u32>, AllocError>
    ensures { IfOk result (λ number. number ≡ spec.object_number scopes.now numbers.now) }
{
    let name = Text::from_slice(alloc, OBJECT.as_slice())?;
    Ok(number_of_named(numbers, scopes.lookup(0, &name)))
}

fn number_of_named(numbers: &[u32], named: Option<Named>) -> Option<u32>
    ensures { result ≡ option_and_then (slice_get numbers.now) (option_and_then spec.class_named named) }
{
    number_at(numbers, class_named(named?)?)
}

impl Naming<'_> {
    /// The number of the class that a supertype in this head names.
    pub fn meant(&self, written: &WrittenClass<'_>, names: &[Name]) -> Option<u32>
        ensures { result ≡ spec.meant self.now written.now names.now }
    {
        let class = class_meant(
            self.scopes.get(),
            written.file,
            written.type_parameters(),
            names,
        )?;
        number_at(self.numbers.get(), class)
    }
}
