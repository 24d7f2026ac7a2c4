//! Reads rows from standard input, and prints what the scanner, the looks ahead and the parsers say of each.
//!
//! The rows stand in sections. A section begins with a line `--- QUESTION: NAME` or `--- QUESTION, MANNER: NAME`. Its other
//! lines are sources in the language. All lines are printed as they stand, and behind each source the answer to the question,
//! or why there is none. [`questions`] has the questions.
//!
//! With no manner each line is a source. The others are:
//!
//! - `encoded`: so is it, and `%` and two hexadecimal digits are a byte;
//! - `repeated`: a line is `COUNT FIRST|LEFT|MIDDLE|RIGHT|LAST`, where LEFT and RIGHT stand COUNT times;
//! - `filled`: each line but the first is a word, which stands for each `#` of the first line;
//! - `whole`: all lines are one source.
//!
//! - [`tokens`]: the tokens of a source.
//! - [`looks`]: what is told by a look at tokens.
//! - [`expressions`]: the expression of a source.
//! - [`files`]: the file that a source is.
//! - [`outline`], [`shown`]: trees in words.
//! - [`built`]: trees that are built with no parser.
//! - [`sources`]: the source that a line is.
#![tactic(auto)]

mod built;
mod expressions;
mod files;
mod looks;
mod outline;
mod questions;
mod shown;
mod sources;
mod tokens;

use anyhow::{Context, Result};
use questions::answered;
use sources::source_of;
use std::io;

// Prints the lines of a source, and the answer.
fn answer_row(
    rt: &(impl Print + AllocGlobal),
    question: &str,
    lines: &str,
    source: &[u8],
) -> Result<()> {
    rt.println(lines)?;
    match answered(rt.alloc(), question, source) {
        Ok(answer) => rt.println(format_args!("    {answer}"))?,
        Err(error) => rt.println(format_args!("    {error}"))?,
    }
    Ok(())
}

fn answer_lines(
    rt: &(impl Print + AllocGlobal),
    question: &str,
    manner: &str,
    body: &str,
) -> Result<()> {
    for line in body.split('\n') {
        let source = source_of(rt.alloc(), manner, line)?;
        answer_row(rt, question, line, source.as_slice())?;
    }
    Ok(())
}

fn answer_filled(rt: &(impl Print + AllocGlobal), question: &str, body: &str) -> Result<()> {
    let (form, words) = body.split_once('\n').context("no words")?;
    rt.println(form)?;
    for word in words.split('\n') {
        let source = form.replace(rt.alloc(), '#', word)?;
        answer_row(rt, question, word, source.as_bytes())?;
    }
    Ok(())
}

fn answer_section(rt: &(impl Print + AllocGlobal), section: &str) -> Result<()> {
    let (heading, body) = section.split_once('\n').context("a heading has no rows")?;
    let (asked, _) = heading.split_once(": ").context("a section has no name")?;
    let (question, manner) = asked.split_once(", ").unwrap_or((asked, ""));
    rt.println(format_args!("--- {heading}"))?;
    match manner {
        "filled" => answer_filled(rt, question, body),
        "whole" => answer_row(rt, question, body, body.as_bytes()),
        _ => answer_lines(rt, question, manner, body),
    }
}

fn main(rt: HostRuntime) -> Result<()> {
    let text = io::read_to_string(rt.alloc(), rt.reader())?;
    let rows = text.as_str().strip_prefix("--- ").context("no section")?;
    for section in rows.strip_suffix('\n').unwrap_or(rows).split("\n--- ") {
        answer_section(&rt, section)?;
    }
    Ok(())
}
