//! Jumps, and `this` and `super`.
ghost use Rattle.std.specs.Prelude.{◌≡◌};
ghost use Rattle.dart_sites.specs.Surroundings.{is_of_object};
ghost use Rattle.body_rules.specs.Jumps as spec;

use dart_sites::surroundings::Within;
use dart_sites::{Site, Surroundings};

/// A `break` that no loop of its function is around.
pub fn break_at(around: &Surroundings<'_, '_>, site: &Site<'_>) -> Option<u32>
    ensures { result ≡ spec.break_at around.now site.now }
{
    match site {
        Site::Break(span) => (!around.in_loop).then_some(span.from),
        _ => None,
    }
}

/// A `continue` that no loop of its function is around.
pub fn continue_at(around: &Surroundings<'_, '_>, site: &Site<'_>) -> Option<u32>
    ensures { result ≡ spec.continue_at around.now site.now }
{
    match site {
        Site::Continue(span) => (!around.in_loop).then_some(span.from),
        _ => None,
    }
}

fn is_of_object(within: &Within<'_>) -> bool
    ensures { result ≡ is_of_object within.now }
{
    matches!(within, Within::Instance | Within::ConstructorBody(_))
}

/// A `this` outside of instance members and of the bodies of constructors.
pub fn this_at(around: &Surroundings<'_, '_>, site: &Site<'_>) -> Option<u32>
    ensures { result ≡ spec.this_at around.now site.now }
{
    match site {
        Site::This(span) => (!is_of_object(around.within.get())).then_some(span.from),
        _ => None,
    }
}

/// A `super` outside of instance members and of the bodies of constructors.
pub fn super_at(around: &Surroundings<'_, '_>, site: &Site<'_>) -> Option<u32>
    ensures { result ≡ spec.super_at around.now site.now }
{
    match site {
        Site::Super(span) => (!is_of_object(around.within.get())).then_some(span.from),
        _ => None,
    }
}

fn is_constructor_body(within: &Within<'_>) -> bool
    ensures { result ≡ spec.is_constructor_body within.now }
{
    matches!(within, Within::ConstructorBody(_))
}

/// A `return` by which a constructor gives a value.
pub fn return_at(around: &Surroundings<'_, '_>, site: &Site<'_>) -> Option<u32>
    ensures { result ≡ spec.return_at around.now site.now }
{
    match site {
        Site::ReturnValue(span) => {
            let is_in_constructor = is_constructor_body(around.within.get());
            (is_in_constructor && !around.in_function).then_some(span.from)
        }
        _ => None,
    }
}

/// A `rethrow` that no catch clause of its function is around.
pub fn rethrow_at(around: &Surroundings<'_, '_>, site: &Site<'_>) -> Option<u32>
    ensures { result ≡ spec.rethrow_at around.now site.now }
{
    match site {
        Site::Rethrow(span) => (!around.in_catch).then_some(span.from),
        _ => None,
    }
}
