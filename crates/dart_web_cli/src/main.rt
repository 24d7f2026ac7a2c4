//! The program: `compile ENTRY OUT` and `runjs OUT` over the files of the machine and standard output.
//!
//! - [`words`]: the command that words are; [`options`]: the options of a run.
//! - [`load`]: from an entry to its translation, or the first rule that it breaks.
//! - [`translate`]: the translation and its promise; [`parts`]: the parts of its trees.
//! - [`scripts`]: from OUT to the trees of its scripts, or the first of them that is not in the subset.
//! - [`runs`]: the run of scripts, and what is said of it.
//! - [`lines`]: the lines that are said.
//! - [`top`]: the top call.
#![tactic(auto)]

pub mod lines;
pub mod load;
pub mod options;
mod parts;
#[cfg(test)]
mod run_tests;
pub mod runs;
pub mod scripts;
#[cfg(test)]
mod tests;
pub mod top;
pub mod translate;
pub mod words;

use code_units::Words;
use outside::{DiskSink, DiskSource};
use std::process::ExitCode;
use std::{env, io};
use top::{Status, dart_web_alone};

fn main(rt: HostRuntime) -> ExitCode {
    let alloc = rt.alloc();
    let mut words = Words::new(alloc);
    match env::args(&rt) {
        Ok(args) => {
            for word in args.skip(1) {
                if words.push(word.as_str()).is_err() {
                    return ExitCode::from(Status::Memory.code());
                }
            }
        }
        Err(e) if e.kind() == io::ErrorKind::OutOfMemory => {
            return ExitCode::from(Status::Memory.code());
        }
        // A word that is no text is in no command, as no words are.
        Err(_) => {}
    }
    let mut source = DiskSource::new(&rt);
    let mut sink = DiskSink::new(&rt);
    ExitCode::from(dart_web_alone(alloc, &words, &mut source, &mut sink).code())
}
