//! What scopes declare, and where it is named.
ghost use Rattle.std.specs.Prelude.{◌≡◌, option_copied, slice_get};
ghost use Rattle.library_scopes.specs.Uses.{is_dynamic};
ghost use Rattle.body_rules.specs.Blocks as spec;

use dart_grammar::trees::Name;
use dart_sites::{Site, Surroundings};

/// The name of a local that its block or parameter list declares already.
pub fn doubled_at(around: &Surroundings<'_, '_>, site: &Site<'_>) -> Option<u32>
    ensures { result ≡ spec.doubled_at around.now site.now }
{
    match site {
        Site::Local(name) => doubled_name(around, name.get()),
        _ => None,
    }
}

fn doubled_name(around: &Surroundings<'_, '_>, name: &Name) -> Option<u32>
    ensures { result ≡ spec.doubled_name around.now name.now }
{
    let innermost = around.scopes.get().as_slice().last()?;
    let first = innermost.locals.find(name.text.as_slice())?;
    let at = name.span.from;
    (first.name.get().span.from < at).then_some(at)
}

const DYNAMIC: [u16; 7] = [100, 121, 110, 97, 109, 105, 99];

fn is_dynamic(names: &[Name]) -> bool
    ensures { result ≡ is_dynamic names.now }
{
    match names.split_first() {
        Some((name, rest)) => rest.is_empty() && name.text.as_slice() == DYNAMIC.as_slice(),
        None => false,
    }
}

/// The name that is looked up in the scopes around.
fn looked_up<'a>(site: &Site<'a>) -> Option<&'a Name>
    ensures { option_copied result ≡ spec.looked_up site.now }
{
    match site {
        Site::Named(name, _) => Some(name.get()),
        Site::Made(_, names, _) => names.get().first(),
        Site::TypeTested(names) => tested(names.get()),
        _ => None,
    }
}

fn tested(names: &[Name]) -> Option<&Name>
    ensures { option_copied result ≡ spec.tested names.now }
{
    if is_dynamic(names) {
        None
    } else {
        names.first()
    }
}

/// A name that stands before the end of the declaration that it has in the scopes around it.
pub fn early_at(around: &Surroundings<'_, '_>, site: &Site<'_>) -> Option<u32>
    ensures { result ≡ spec.early_at around.now site.now }
{
    match looked_up(site) {
        Some(name) => early_name(around, name),
        None => None,
    }
}

fn early_name(around: &Surroundings<'_, '_>, name: &Name) -> Option<u32>
    ensures { result ≡ spec.early_name around.now name.now }
{
    let found = around.scopes.get().find(name.text.as_slice())?;
    let at = name.span.from;
    (at < found.local.get().ends).then_some(at)
}
