//! What names mean in the libraries of a program.
//!
//! - [`named`]: what a name stands for.
//! - [`names`]: names, found by hashing.
//! - [`libraries`]: what libraries declare and import.
//! - [`reading`]: the libraries of a program, read from its files.
//! - [`lookups`]: what a name stands for in a library and behind a prefix.
//! - [`taken`], [`doubles`]: names that are declared twice.
//! - [`reuses`]: deferred prefixes that another import uses.
//! - [`entry`]: the function `main`.
//! - [`nearer`], [`ambiguous`]: names that two imports give as two declarations.
//! - [`resolving`]: the libraries of a program, where they break no rule.
#![tactic(auto)]

mod ambiguous;
pub mod doubles;
pub mod entry;
mod least;
pub mod libraries;
pub mod lookups;
pub mod named;
pub mod names;
mod nearer;
pub mod reading;
pub mod resolving;
pub mod reuses;
pub mod taken;

pub use libraries::Scopes;
pub use named::Named;
pub use resolving::{ScopeError, resolve};
