//! What stands in a file: each site once and in order, with what is around it.

ghost use Rattle.std.specs.Prelude.{◌≡◌, ◌++◌, OnOk};
ghost use Rattle.dart_sites.specs.Listing as spec;

use anyhow::Result;
use code_units::Bytes;
use dart_sites::sites::Site;
use dart_sites::surroundings::Surroundings;
use dart_sites::visit_file;
use dart_sites::visitor::Visitor;
use source_programs::tree_of;
use std::alloc::{AllocError, Global};

fn letter(site: &Site<'_>) -> u8
    ensures { result ≡ spec.letter site.now }
{
    match site {
        Site::Named(_, _) => b'n',
        Site::Selected(_, _, _) => b'.',
        Site::Operated(_, _, _) => b'+',
        Site::Local(_) => b'v',
        Site::ParameterList(_, _) => b'p',
        Site::FieldParameter(_, _) => b't',
        Site::Literal(_, _) => b'l',
        Site::Break(_) => b'b',
        Site::Rethrow(_) => b'r',
        Site::ForIn(_) => b'i',
        Site::Function(_) => b'f',
        Site::Constructor(_) => b'c',
        Site::FieldInitialiser(_, _) => b'=',
        Site::Class(_) => b'C',
        _ => b'?',
    }
}

fn digit(surroundings: &Surroundings<'_, '_>) -> u8
    ensures { result ≡ spec.digit surroundings.now }
{
    let in_loop = if surroundings.in_loop { 1 } else { 0 };
    let in_catch = if surroundings.in_catch { 2 } else { 0 };
    let in_function = if surroundings.in_function { 4 } else { 0 };
    48 + in_loop + in_catch + in_function
}

#[derive(Drop)]
struct Listing {
    notes: Bytes,
}

impl Visitor for Listing {
    ghost step = { λ listing s y. record { notes = listing.notes ++ spec.note s y } };

    fn visit(
        &mut self,
        surroundings: &Surroundings<'_, '_>,
        site: &Site<'_>,
    ) -> Result<(), AllocError> {
        let note = [letter(site), digit(surroundings)];
        self.notes.extend(note.as_slice())
    }
}

/// The notes of what stands in a file, each a letter for the site and a digit for what is around it: 1 for a loop, 2 for a
/// clause of a `try`, 4 for a function.
pub fn notes(alloc: Global, text: &str) -> Result<String> {
    let tree = tree_of(alloc, 1, text.as_bytes())?;
    let listing = Listing {
        notes: Bytes::new(alloc),
    };
    let seen = visit_file(alloc, &tree, listing)?;
    Ok(String::from_utf8_lossy(alloc, seen.notes.as_slice())?)
}
