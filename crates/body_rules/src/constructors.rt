//! What constructors call before their bodies.
ghost use Rattle.std.specs.Prelude.{◌≡◌, length, filter, nat_lt};
ghost use Rattle.body_rules.specs.Constructors as spec;

use dart_grammar::declarations::Initialiser;
use dart_sites::surroundings::Within;
use dart_sites::{Site, Surroundings};

fn is_super_call(initialiser: &Initialiser) -> bool
    ensures { result ≡ spec.is_super_call initialiser.now }
{
    match initialiser {
        Initialiser::Super(_, _, _) => true,
        Initialiser::Field(_, _, _) => false,
    }
}

fn are_several(initialisers: &[Initialiser]) -> bool
    ensures { result ≡ nat_lt 1 (length (filter spec.is_super_call initialisers.now)) }
{
    let mut has_one = false;
    for initialiser in initialisers {
        if is_super_call(initialiser) {
            if has_one {
                return true;
            }
            has_one = true;
        }
    }
    false
}

fn has_several(within: &Within<'_>) -> bool
    ensures { result ≡ spec.has_several within.now }
{
    match within {
        Within::ConstructorHead(constructor) => {
            are_several(constructor.get().initialisers.as_slice())
        }
        _ => false,
    }
}

/// A super call with something behind it, or with another one beside it. The initialisers are gone through only for one that
/// stands last.
pub fn super_call_at(around: &Surroundings<'_, '_>, site: &Site<'_>) -> Option<u32>
    ensures { result ≡ spec.super_call_at around.now site.now }
{
    match site {
        Site::SuperInitialiser(span, _, _, is_last) => {
            (!*is_last || has_several(around.within.get())).then_some(span.from)
        }
        _ => None,
    }
}
