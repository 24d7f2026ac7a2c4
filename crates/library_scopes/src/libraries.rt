//! What the libraries of a program declare and import.

use crate::names::{NameSet, Names};
use sqlite_items::Items;

/// `show names` or `hide names`.
#[derive(Drop)]
pub struct Selection {
    pub hides: bool,
    pub names: NameSet,
}

/// An import: the number of the library that it imports, and that of its prefix.
#[derive(Drop)]
pub struct Imported {
    pub library: u32,
    pub prefix: Option<u32>,
    pub selections: Items<Selection>,
}

/// A library.
#[derive(Drop)]
pub struct Library {
    /// What it declares under names.
    pub values: Names,
    /// What takes a value that is assigned to one of its names.
    pub setters: Names,
    /// The prefixes of its imports.
    pub prefixes: Names,
    /// Its imports in order.
    pub imports: Items<Imported>,
}

/// A prefix: the number of the library whose imports use it, and that of its import among the deferred ones of the program,
/// where that is deferred.
#[derive(Drop)]
pub struct Prefix {
    pub library: u32,
    pub deferred: Option<u32>,
}

/// The libraries of a program by the numbers of their files, and its prefixes by their numbers.
#[derive(Drop)]
pub struct Scopes {
    pub libraries: Items<Library>,
    pub prefixes: Items<Prefix>,
}
