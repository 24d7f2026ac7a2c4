//! What values lead to, and what names stand for.

use crate::closure::Closure;
use crate::names::Name;
use crate::value::Value;
use store_lists::{Entries, Pairs, SharedText, Slots};

/// The names of a block with what they have: nothing, as long as their `let` has not run.
pub type Scope<'a> = Pairs<Name<'a>, Option<Value<'a>>>;

/// The properties of an object.
pub type Properties<'a> = Pairs<SharedText<'a>, Value<'a>>;

/// Objects, arrays, maps, functions and scopes by their addresses, and the top scope.
#[derive(Drop)]
pub struct Store<'a> {
    pub objects: Slots<Properties<'a>>,
    pub arrays: Slots<Slots<Value<'a>>>,
    pub maps: Slots<Entries<Value<'a>, Value<'a>>>,
    pub functions: Slots<Closure<'a>>,
    pub scopes: Slots<Scope<'a>>,
    pub top: Scope<'a>,
}
