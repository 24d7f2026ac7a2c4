//! Runs files of the JavaScript subset, row by row of its input, and prints what each run printed and how it ended.
//!
//! - [`rows`]: the rows of a text, and the files of a row.
//! - [`limits`]: what a heading says of its run.
//! - [`files`]: the trees of a row's files.
//! - [`shown`]: what is printed of a run.
#![tactic(auto)]

mod files;
mod limits;
mod rows;
mod shown;

use anyhow::Result;
use files::trees_of;
use js_meaning::run_to;
use limits::Limits;
use rows::{Row, rows};
use shown::run_text;
use std::alloc::Global;
use std::io;

// The run of a row, as it is printed.
fn answer(alloc: Global, row: &Row) -> Result<String> {
    let Limits {
        steps,
        depth,
        order,
    } = Limits::read(alloc, row.heading)?;
    let trees = trees_of(alloc, row.body)?;
    let run = run_to(alloc, &trees, depth, order.as_slice(), steps)?;
    Ok(run_text(alloc, trees.as_slice(), &run)?)
}

fn main(rt: HostRuntime) -> Result<()> {
    let input = io::read_to_string(rt.alloc(), rt.reader())?;
    for row in rows(rt.alloc(), input.as_str())?.as_slice() {
        println!(rt; "--- {}", row.heading)?;
        print!(rt; "{}", answer(rt.alloc(), row)?)?;
    }
    Ok(())
}
