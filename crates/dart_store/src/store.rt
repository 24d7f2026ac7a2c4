//! What values lead to, and what waits.

use crate::value::Value;
use store_lists::{Entries, Order, Pairs, SharedText, Slots, Waiting};

/// A top-level or static variable.
#[derive(Drop)]
pub enum Static<'a> {
    /// It isn't initialised.
    Waits,
    /// Its initialiser runs.
    Runs,
    /// It is initialised, and this is its value.
    Has(Value<'a>),
}

/// A load that is asked for: the number of its import, and the future that is to complete.
#[derive(Drop)]
pub struct Asked<'a> {
    pub import: u32,
    pub future: Value<'a>,
}

/// Objects, lists, maps and cells by their addresses; static variables, ready callbacks and loads.
#[derive(Drop)]
pub struct Store<'a> {
    /// The names of the classes, by their numbers.
    pub names: Slots<SharedText<'a>>,
    /// The classes of the objects.
    pub classes: Slots<u32>,
    /// The fields of the objects, by their numbers as members.
    pub fields: Slots<Pairs<u32, Value<'a>>>,
    pub lists: Slots<Slots<Value<'a>>>,
    pub maps: Slots<Entries<Value<'a>, Value<'a>>>,
    /// The variables of blocks and calls.
    pub cells: Slots<Value<'a>>,
    /// The top-level and static variables, by their numbers as members.
    pub statics: Pairs<u32, Static<'a>>,
    /// The callbacks that are ready.
    pub ready: Waiting<Value<'a>>,
    /// How many callbacks were made ready in all.
    pub readied: u64,
    /// The loads that are asked for.
    pub asked: Waiting<Asked<'a>>,
    /// The numbers that tell which loads complete.
    pub order: Order<'a>,
    /// The imports through which a load has completed.
    pub loaded: Pairs<u32, bool>,
}
