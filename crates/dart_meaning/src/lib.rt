//! The first programs: what they are, how they are read, and what they mean.
//!
//! A first program is `main ( ) {`, statements, `}`. A statement is `print ( e ) ;` or `var name = e ;`. An `e` is a
//! text, or whole numbers and names with `+`, `-` and `*` between them.
//!
//! - [`program`]: programs.
//! - [`characters`]: the characters of a text.
//! - [`tokens`]: one token at a time.
//! - [`names`]: the names that are declared so far.
//! - [`read`]: the program that tokens are.
//! - [`run`]: the run of a program.
#![tactic(auto)]

mod characters;
mod names;
mod program;
mod read;
mod run;
mod tokens;

pub use program::{
    Addend, Expression, MAX_NUMBER, Operand, Product, Program, Sign, Statement, Sum,
};
pub use read::{read_program, tokens_are_one_program};
pub use run::{run_first, runs_are_of_a_meaning};

#[cfg(test)]
mod tests;
