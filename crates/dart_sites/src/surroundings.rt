//! What is around a place in a file.

use crate::lent::Lent;
use crate::scopes::Scopes;
use dart_grammar::declarations::{Alias, Class, Constructor};

/// A class with a body, or one without.
#[derive(Drop)]
pub enum Owner<'a> {
    Class(Lent<'a, Class>),
    Alias(Lent<'a, Alias>),
}

/// Which part of a declaration a place is in.
#[derive(Drop)]
pub enum Within<'a> {
    /// What stands before the members of a class.
    Header,
    /// A function, accessor or variable of the library.
    Library,
    /// A static function, accessor or variable of a class.
    Static,
    /// An instance method, getter, setter or operator.
    Instance,
    /// The value that a field is given where it is declared.
    FieldValue,
    /// A constructor, but for its body.
    ConstructorHead(Lent<'a, Constructor>),
    /// The body of a constructor.
    ConstructorBody(Lent<'a, Constructor>),
}

/// What is around a place in a file.
#[derive(Drop)]
pub struct Surroundings<'s, 'a> {
    /// The class that it stands in.
    pub class: Lent<'s, Option<Owner<'a>>>,
    pub within: Lent<'s, Within<'a>>,
    /// Whether it stands in a function literal or a local function.
    pub in_function: bool,
    /// Whether a loop of the innermost function is around it.
    pub in_loop: bool,
    /// Whether a catch clause of the innermost function is around it.
    pub in_catch: bool,
    /// The scopes around it.
    pub scopes: Lent<'s, Scopes<'a>>,
}
