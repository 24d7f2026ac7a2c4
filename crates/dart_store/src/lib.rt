//! What a run of Dart works on.
//!
//! - [`value`]: values.
//! - [`store`]: objects, lists, maps, variables, callbacks and loads; [`functions`]: what function values hold.
//! - [`natives`]: what the prelude's bodies can do that the language can't, by name; [`table`]: what each native does, and
//!   [`answers`] what it answers.
//! - [`numbers`], [`texts`], [`lists`], [`maps`]: the natives on each of these.
#![tactic(auto)]

pub mod answers;
mod equality;
mod events;
pub mod functions;
pub mod lists;
pub mod maps;
pub mod natives;
pub mod numbers;
mod objects;
pub mod store;
pub mod table;
pub mod texts;
pub mod value;

pub use answers::{Applied, Thrower};
pub use functions::{Function, Functions, make_function};
pub use natives::Native;
pub use store::{Asked, Static, Store};
pub use table::{apply_native, printed};
pub use value::Value;
