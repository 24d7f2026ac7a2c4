//! The state of a run, the places at which its parts run, and how they end early.

use code_units::Lines;
use js_store::{Env, Host, Name, Store, Value};
use js_tree::JsMember;
use std::alloc::AllocError;

/// The place of a statement or `var`: the number of its file, and its offset there in bytes.
#[derive(Clone, Copy, Debug, PartialEq, Eq)]
pub struct Spot {
    pub file: u32,
    pub at: u64,
}

/// Where an expression is evaluated: by which statement or `var`, and in which scopes.
#[derive(Drop)]
pub struct Here<'a> {
    pub spot: Spot,
    pub env: Env<'a>,
}

/// What a statement stands in: a file, scopes, and whether it is a function.
#[derive(Drop)]
pub struct Around<'a> {
    pub file: u32,
    pub env: Env<'a>,
    pub in_function: bool,
}

/// What is called.
#[derive(Drop)]
pub enum Callee<'a> {
    /// A value.
    Applied(Value<'a>),
    /// `String`
    StringOf,
    /// `Array.isArray`
    IsArray,
    /// `Array.from`
    ArrayFrom,
    /// A word of a value.
    Method(Value<'a>, JsMember),
}

/// What cuts the whole run short.
#[derive(Clone, Copy, Debug, PartialEq, Eq)]
pub enum Stop {
    /// Memory was wanting.
    Memory,
    /// A result left the range of whole numbers.
    Range,
    /// No rule applies to what runs there.
    NoRule(Spot),
    /// No step is left.
    Steps,
    /// Too much is nested.
    Depth,
}

/// What leaves a part of the run, and can be caught.
#[derive(Drop)]
pub enum Leave<'a> {
    /// A `break` to this label.
    Break(Name<'a>),
    Return(Value<'a>),
    /// A throw, by the statement at this place.
    Throw(Value<'a>, Spot),
}

/// How a part of the run ends early.
#[derive(Drop)]
pub enum Jump<'a> {
    Stop(Stop),
    Leave(Leave<'a>),
}

impl<'a> From<AllocError> for Jump<'a> {
    ghost use Rattle.std.specs.Prelude.{◌≡◌};
    ghost use Rattle.js_meaning.specs.declared.state.Stop.TheVariants.{Memory};
    ghost use Rattle.js_meaning.specs.declared.state.Jump.TheVariants.{Stop};

    ghost from_gives = { λ _ e. e ≡ Stop Memory };

    fn from(_: AllocError) -> Jump<'a> {
        Jump::Stop(Stop::Memory)
    }
}

/// What a run has made: the store, and the host with its loads and the files that have run.
#[derive(Drop)]
pub struct Realm<'a> {
    pub store: Store<'a>,
    pub host: Host<'a>,
}

/// What a run has come to.
#[derive(Drop)]
pub struct State<'a> {
    /// The steps that are left.
    pub steps: u64,
    pub realm: Realm<'a>,
    /// What was printed.
    pub output: Lines,
}
