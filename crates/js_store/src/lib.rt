//! What a run of the JavaScript subset works on.
//!
//! - [`value`]: values; [`Name`]: names of the program. Texts, lists and maps are those of `store_lists`.
//! - [`store`]: objects, arrays, maps, functions and scopes by their addresses, and the top scope; [`closure`]: functions,
//!   and the scopes around what runs.
//! - [`host`]: loads that are asked for, and files that have run.
#![tactic(auto)]

pub mod closure;
mod equality;
mod events;
pub mod host;
mod methods;
mod names;
mod scopes;
pub mod store;
pub mod value;

pub use closure::{Closure, Env};
pub use host::{Host, Load, Printed};
pub use names::Name;
pub use store::{Properties, Scope, Store};
pub use store_lists::{Entries, MAX_NUMBER, Pairs, Share, SharedText, Slots, is_length};
pub use value::Value;
