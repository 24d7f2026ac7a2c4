//! What is around a place.
ghost use Rattle.std.specs.Prelude.{◌≡◌};
ghost use Rattle.dart_sites.specs.Surroundings as surroundings_spec;
ghost use Rattle.library_scopes.specs.Uses as uses;
ghost use Rattle.name_meanings.specs.Meanings as spec;

use dart_grammar::declarations::Class;
use dart_grammar::trees::Name;
use dart_sites::Surroundings;
use dart_sites::surroundings::Within;

fn has_text(text: &[u16], name: &Name) -> bool
    ensures { result ≡ uses.has_text text.now name.now }
{
    text == name.text.as_slice()
}

/// Whether a class has a type parameter of this name.
pub fn is_type_parameter(text: &[u16], class: &Class) -> bool
    ensures { result ≡ spec.is_type_parameter text.now class.now }
{
    class
        .type_parameters
        .as_slice()
        .iter()
        .any(|name| has_text(text, name))
}

/// Whether there is a `this`.
pub fn has_this(around: &Surroundings<'_, '_>) -> bool
    ensures { result ≡ surroundings_spec.has_this around.now }
{
    match around.within.get() {
        Within::Instance => true,
        Within::ConstructorBody(_) => true,
        _ => false,
    }
}
