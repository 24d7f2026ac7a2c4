//! The declaration that a name has in the scopes around it.
ghost use Rattle.std.specs.Prelude.{◌≡◌};
ghost use Rattle.dart_sites.specs.Scopes as spec;

use crate::lent::Lent;
use crate::scopes::{Found, Scope, ScopeKind, Scopes};

fn begins_function(scope: &Scope<'_>) -> bool
    ensures { result ≡ spec.begins_function scope.now }
{
    match scope.kind {
        ScopeKind::Block => false,
        ScopeKind::For => false,
        ScopeKind::Catch => false,
        ScopeKind::Parameters => true,
    }
}

/// Of scopes, the outermost first, the innermost one that declares the name; in it the first declaration. Takes time linear
/// in the number of scopes, however many names they have.
#[tactic(auto, using(crate::proofs::Found::beyond_none))]
pub fn find<'s, 'a>(name: &[u16], scopes: &'s [Scope<'a>]) -> Option<Found<'s, 'a>>
    ensures { result ≡ spec.found name.now scopes.now }
{
    let mut is_captured = false;
    let mut left = scopes.len();
    'outward: while left > 0 {
        left -= 1;
        let scope = &scopes[left];
        match scope.locals.find(name) {
            Some(local) => {
                let local = Lent::new(local);
                return Some(Found { local, is_captured });
            }
            None => is_captured = is_captured || begins_function(scope),
        }
    }
    None
}

impl<'a> Scopes<'a> {
    /// The declaration that a name has there, in the innermost scope that has one. Takes time linear in the number of scopes.
    pub fn find<'s>(&'s self, name: &[u16]) -> Option<Found<'s, 'a>>
        ensures { result ≡ spec.found name.now self.now }
    {
        find(name, self.as_slice())
    }
}
