//! What the supertypes in the head of a class mean.
ghost use Rattle.std.specs.Prelude.{◌≡◌, is_some, option_and_then};
ghost use Rattle.std.specs.List.{list_any};
ghost use Rattle.library_scopes.specs.Lookups.{deferred};
ghost use Rattle.library_scopes.specs.Uses.{has_text};
ghost use Rattle.class_heads.specs.Heads as spec;

use dart_grammar::trees::Name;
use library_scopes::reading::number_of;
use library_scopes::{Named, Scopes};

/// The class that this is, by its number as it is written.
pub fn class_named(named: Named) -> Option<u32>
    ensures { result ≡ spec.class_named named }
{
    match named {
        Named::Class(number) => Some(number),
        _ => None,
    }
}

fn are_one_text(name: &Name, other: &Name) -> bool
    ensures { result ≡ has_text name.now.text other.now }
{
    name.text.as_slice() == other.text.as_slice()
}

fn is_among(name: &Name, parameters: &[Name]) -> bool
    ensures { result ≡ list_any (has_text name.now.text) parameters.now }
{
    parameters
        .iter()
        .any(|parameter| are_one_text(name, parameter))
}

fn looked_up(scopes: &Scopes, file: u32, parameters: &[Name], name: &Name) -> Option<Named>
    ensures { result ≡ spec.looked_up scopes.now file parameters.now name.now }
{
    if is_among(name, parameters) {
        None
    } else {
        scopes.lookup(file, &name.text)
    }
}

fn prefix_at(scopes: &Scopes, file: u32, parameters: &[Name], name: &Name) -> Option<u32>
    ensures { result ≡ spec.prefix_at scopes.now file parameters.now name.now }
{
    number_of(looked_up(scopes, file, parameters, name)?)
}

fn class_behind(scopes: &Scopes, name: &Name, prefix: u32) -> Option<u32>
    ensures { result ≡ spec.class_behind scopes.now name.now prefix }
{
    class_named(scopes.behind(prefix, &name.text)?)
}

/// The class that a supertype names, by its number as it is written.
#[tactic(auto, unfolding(crate::specs::Heads::class_meant))]
pub fn class_meant(scopes: &Scopes, file: u32, parameters: &[Name], names: &[Name]) -> Option<u32>
    ensures { result ≡ spec.class_meant scopes.now file parameters.now names.now }
{
    let (first, rest) = names.split_first()?;
    match rest.split_first() {
        None => class_named(looked_up(scopes, file, parameters, first)?),
        Some((second, more)) if more.is_empty() => {
            class_behind(scopes, second, prefix_at(scopes, file, parameters, first)?)
        }
        Some(_) => None,
    }
}

/// Whether a supertype stands behind a deferred prefix.
#[tactic(auto, unfolding(crate::specs::Heads::is_behind_deferred))]
pub fn is_behind_deferred(scopes: &Scopes, file: u32, parameters: &[Name], names: &[Name]) -> bool
    ensures { result ≡ spec.is_behind_deferred scopes.now file parameters.now names.now }
{
    match names.split_first() {
        Some((first, rest)) if !rest.is_empty() => {
            is_prefix_deferred(scopes, prefix_at(scopes, file, parameters, first))
        }
        _ => false,
    }
}

fn is_prefix_deferred(scopes: &Scopes, prefix: Option<u32>) -> bool
    ensures { result ≡ is_some (option_and_then (deferred scopes.now) prefix) }
{
    match prefix {
        Some(prefix) => scopes.deferred(prefix).is_some(),
        None => false,
    }
}
