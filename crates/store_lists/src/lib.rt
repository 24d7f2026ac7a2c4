//! Lists, maps and texts of a run, as an interpreter needs them: changed in place, and shared without a copy.
//!
//! - [`slots`], [`pairs`], [`entries`]: lists, keys with values, and keys with values from which keys are removed.
//! - [`changes`]: changes of one of these among many.
//! - [`waiting`]: what waits for its turn, and numbers that tell whose turn it is.
//! - [`text`]: texts. [`share`]: what is had once more without memory.
//! - [`limits`]: how large numbers and counts may be.
#![tactic(auto)]

pub mod changes;
pub mod entries;
pub mod limits;
pub mod pairs;
mod parts;
pub mod share;
pub mod slots;
pub mod text;
pub mod waiting;

pub use entries::Entries;
pub use limits::{MAX_NUMBER, in_range, is_length};
pub use pairs::Pairs;
pub use share::Share;
pub use slots::Slots;
pub use text::SharedText;
pub use waiting::{Order, Waiting};
