//! The scanner of the Dart profile: the tokens of a file, or the first rule on tokens that it breaks.
//!
//! One pass from the left, with what is open on a stack. Where a text begins that stands in no other, a second pass
//! looks ahead to its end, since a text that isn't closed on its line is refused before all that stands in it.
//!
//! - [`scanner`]: whole files.
#![tactic(auto)]

mod bytes;
mod escapes;
mod items;
mod levels;
mod numbers;
pub mod scanner;
mod steps;
mod texts;
mod units;

pub use scanner::{ScanError, scan};
