//! Reads files of the JavaScript subset, row by row of its input, and prints their trees, or where they leave all files that
//! have one.
//!
//! - [`rows`]: the rows of a text.
//! - [`chars`]: how characters stand in rows.
//! - [`files`]: what is printed of a file.
//! - [`gaps`]: files whose gaps a row chooses.
//! - [`built`]: trees that no file was read for.
#![tactic(auto)]

mod built;
mod chars;
mod files;
mod gaps;
mod rows;

use anyhow::{Result, bail};
use built::built_file;
use chars::{chars_of, on_one_line};
use files::{place, read, units};
use gaps::with_gaps;
use js_reader::{one_fault, one_token_list, one_tree, printed_is_read_back};
use rows::{Row, rows};
use std::alloc::Global;
use std::io;

// The one file of a row, by its lines.
fn read_whole(alloc: Global, lines: &str) -> Result<String> {
    let mut file = chars_of(alloc, lines)?;
    if !file.is_empty() {
        file.push('\n')?;
    }
    read(alloc, file.as_str())
}

// Each line is a file, and has an answer on one line.
fn read_each(alloc: Global, lines: &str) -> Result<String> {
    let mut answers = String::new(alloc);
    for line in lines.split('\n') {
        let file = chars_of(alloc, line)?;
        let answer = read(alloc, file.as_str())?;
        writeln!(answers, "{}", on_one_line(alloc, answer.as_str())?)?;
    }
    Ok(answers)
}

// What is printed below the heading of a row.
fn answer(alloc: Global, row: &Row) -> Result<String> {
    match row.asks {
        "" => read_whole(alloc, row.body),
        "lines" => read_each(alloc, row.body),
        "units" => units(alloc, row.body),
        "place" => place(alloc, chars_of(alloc, row.body)?.as_str()),
        "built" => built_file(alloc, row.name),
        asks => match asks.strip_prefix("gaps ") {
            Some(gaps) => read(alloc, with_gaps(alloc, gaps, row.body)?.as_str()),
            None => bail!("no row asks for this"),
        },
    }
}

// What holds of all files.
fn laws() {
    one_token_list();
    one_fault();
    one_tree();
    printed_is_read_back();
}

fn main(rt: HostRuntime) -> Result<()> {
    laws();
    let input = io::read_to_string(rt.alloc(), rt.reader())?;
    for row in rows(rt.alloc(), input.as_str())?.as_slice() {
        println!(rt; "--- {}", row.heading)?;
        print!(rt; "{}", answer(rt.alloc(), row)?)?;
    }
    Ok(())
}
