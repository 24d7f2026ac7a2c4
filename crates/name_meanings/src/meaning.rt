//! What a name can mean.

use dart_sites::scopes::Found;
use library_scopes::Named;

/// What a name means that no scope around has.
#[derive(Clone, Copy, Debug, PartialEq, Eq)]
pub enum Meaning {
    /// A member of an object, which is `this` where no receiver is written.
    OfObject,
    /// A static member of a class, by its number.
    Static(u32),
    /// A type parameter of the class around.
    TypeParameter,
    /// What a library declares, or a prefix.
    Named(Named),
    /// The function that loads what a deferred import imports, by the number of the import.
    Load(u32),
    /// Nothing: whoever reaches it has no such method.
    Nothing,
}

/// What a name that stands alone means.
#[derive(Drop)]
pub enum NameMeaning<'s, 'a> {
    /// A variable, parameter or function of a scope.
    Local(Found<'s, 'a>),
    /// What it means beyond the scopes around.
    Beyond(Meaning),
}
