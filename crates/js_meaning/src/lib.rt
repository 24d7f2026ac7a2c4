//! What a list of files of the JavaScript subset means, and the interpreter that comes to it.
//!
//! - [`run_js`]: the run of a list of files.
//! - [`state`]: the state of a run, and how its parts end early.
//! - [`forms`]: what a form is passed for what is nested in it; [`operators`], [`expressions`], [`statements`] and
//!   [`calls`] have the forms, and [`stored`] what looks into the store.
//! - [`laws`]: what holds of the runs of any files.
#![tactic(auto)]

mod calls;
mod expressions;
pub mod forms;
pub mod laws;
mod operators;
mod run;
pub mod state;
mod statements;
mod stored;

pub use run::{MAX_DEPTH, run_js, run_to};
