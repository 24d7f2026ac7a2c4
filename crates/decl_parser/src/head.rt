//! What stands before a class's supertypes.

use dart_grammar::trees::{Name, Names};

/// Whether a class is abstract, its name and its type parameters.
#[derive(Drop)]
pub struct ClassHead {
    pub is_abstract: bool,
    pub name: Name,
    pub type_parameters: Names,
}
