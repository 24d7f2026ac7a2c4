//! What imports give under a name.
ghost use Rattle.std.specs.Prelude.{◌≡◌, ◌++◌, true, option_and_then};
ghost use Rattle.library_scopes.specs.Lookups as lookups;

use library_scopes::libraries::Imported;
use library_scopes::named::Side;
use library_scopes::{Named, Scopes};

/// What the prelude gives without a prefix, with an import or without one.
pub fn by_prelude(scopes: &Scopes, side: Side, name: &[u16], imports: &[Imported]) -> Option<Named>
    ensures { result ≡ lookups.first (lookups.given_by true scopes.now side name.now None imports.now ++ lookups.given_anyway scopes.now side name.now None) }
{
    let given = scopes.first_given(true, side, name, None, imports);
    if given.is_some() {
        return given;
    }
    scopes.given_anyway(side, name, None)
}

/// What the imports of a prefix give. None where they give nothing, and where there is no such prefix.
pub fn behind_on(scopes: &Scopes, prefix: u32, side: Side, name: &[u16]) -> Option<Named>
    ensures { result ≡ option_and_then (lookups.behind_in scopes.now prefix side name.now) (lookups.library_of scopes.now prefix) }
{
    let library = scopes.library(scopes.prefixes.get(prefix as usize)?.library)?;
    scopes.first_candidate(side, name, Some(prefix), library)
}
