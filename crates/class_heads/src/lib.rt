//! The classes of a program.
//!
//! - [`written`]: the classes as they are written.
//! - [`heads`]: what the supertypes in the head of a class mean.
//! - [`naming`]: the same, in numbers of classes.
//! - [`nodes`]: classes by their numbers.
//! - [`origins`]: superclasses alone, and whose body a class has.
//! - [`bodies`]: what rules ask of the bodies of classes.
//! - [`known`], [`faults`]: the first rule that heads break.
//! - [`broken`]: the first rule of classes that a program breaks.
//! - [`cycles`]: which classes stand above themselves.
//! - [`ranks`]: ranks that fall on the way up.
//! - [`search`]: whether a class stands above itself.
#![tactic(auto)]

pub mod bodies;
pub mod broken;
pub mod cycles;
pub mod faults;
pub mod heads;
pub mod known;
pub mod naming;
pub mod nodes;
pub mod origins;
mod ranks;
mod search;
pub mod written;
