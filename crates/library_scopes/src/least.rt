//! The least of places.
ghost use Rattle.std.specs.Prelude.{◌≡◌};
ghost use Rattle.library_scopes.specs.Least as spec;

/// The least of a place and of those before it.
pub fn lesser(least: Option<u32>, place: u32) -> Option<u32>
    ensures { result ≡ spec.lesser least place }
{
    match least {
        Some(other) if other <= place => Some(other),
        _ => Some(place),
    }
}
