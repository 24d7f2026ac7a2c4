//! Reads rows from standard input, and prints what rules and names say of each.
//!
//! The rows stand in sections. A section begins with a line `--- QUESTION: NAME`. Its other lines are texts in the language
//! and look-ups. All lines are printed as they stand, and behind each but those of other files the answer to the question.
//! Other files stand behind their names, as `b.dart: TEXT`.
//!
//! - `rules`: each line is the entry `a.dart` of a program with the other files. Asked is for the first rule of libraries that
//!   it breaks; the answer has the file, with `^` at the place. [`refusals`] finds it.
//! - `classes`, `bodies`: the same, and where no rule of libraries is broken, of the first rule of classes; and where none of
//!   these is, of the first rule of bodies.
//! - `members`: each line is such an entry. Printed are the members of its program, as [`members`] shows them.
//! - `look-ups`: the first line is the entry. Each line behind it asks what is found in classes, as [`look_ups`] answers it.
//! - `names`: the first line is the entry. Each line behind it is a look-up, which [`names`] answers.
//! - `sites`: each line is a file. Asked is what stands in it, as [`sites`] notes it.
//!
//! [`row_files`] makes programs of rows.
#![tactic(auto)]

mod look_ups;
mod members;
mod names;
mod refusals;
mod row_files;
mod sites;

use anyhow::{Context, Result, bail};
use refusals::{Phase, refused};
use row_files::{is_other, resolved, row_files};
use std::alloc::Global;
use std::io;

// The entries of programs, and the rules that these break.
fn answer_rules(rt: &impl Print, alloc: Global, phase: Phase, body: &str) -> Result<()> {
    for line in body.split('\n') {
        rt.println(line)?;
        if !is_other(line) {
            let files = row_files(alloc, line, body)?;
            rt.println(format_args!("    {}", refused(alloc, phase, &files)?))?;
        }
    }
    Ok(())
}

// The entries of programs, and their members.
fn answer_members(rt: &impl Print, alloc: Global, body: &str) -> Result<()> {
    for line in body.split('\n') {
        rt.println(line)?;
        if !is_other(line) {
            members::print_members(rt, alloc, &row_files(alloc, line, body)?)?;
        }
    }
    Ok(())
}

// The entry of a program, and what is found in its classes.
fn answer_look_ups(rt: &impl Print, alloc: Global, body: &str) -> Result<()> {
    let entry = body.split('\n').find(|line| !is_other(line));
    let entry = entry.context("no entry")?;
    let resolved = look_ups::built(alloc, &row_files(alloc, entry, body)?)?;
    for line in body.split('\n') {
        rt.println(line)?;
        if !is_other(line) && line != entry {
            rt.println(format_args!("    {}", look_ups::answer(alloc, &resolved, line)?))?;
        }
    }
    Ok(())
}

// The entry of a program, and what look-ups find.
fn answer_names(rt: &impl Print, alloc: Global, body: &str) -> Result<()> {
    let entry = body.split('\n').find(|line| !is_other(line));
    let entry = entry.context("no entry")?;
    let scopes = resolved(alloc, &row_files(alloc, entry, body)?)??;
    for line in body.split('\n') {
        rt.println(line)?;
        if !is_other(line) && line != entry {
            rt.println(format_args!("    {}", names::looked_up(alloc, &scopes, line)?))?;
        }
    }
    Ok(())
}

// Files, and what stands in them.
fn answer_sites(rt: &impl Print, alloc: Global, body: &str) -> Result<()> {
    for text in body.split('\n') {
        rt.println(text)?;
        rt.println(format_args!("    {}", sites::notes(alloc, text)?))?;
    }
    Ok(())
}

// The heading of a section, and its answers.
fn answer_section(rt: &impl Print, alloc: Global, section: &str) -> Result<()> {
    let (heading, body) = section.split_once('\n').context("a heading has no rows")?;
    rt.println(format_args!("--- {heading}"))?;
    match heading.split_once(": ").context("a section has no name")?.0 {
        "rules" => answer_rules(rt, alloc, Phase::Libraries, body),
        "classes" => answer_rules(rt, alloc, Phase::Classes, body),
        "bodies" => answer_rules(rt, alloc, Phase::Bodies, body),
        "members" => answer_members(rt, alloc, body),
        "look-ups" => answer_look_ups(rt, alloc, body),
        "names" => answer_names(rt, alloc, body),
        "sites" => answer_sites(rt, alloc, body),
        question => bail!("no question {question}"),
    }
}

fn main(rt: HostRuntime) -> Result<()> {
    let text = io::read_to_string(rt.alloc(), rt.reader())?;
    let rows = text.as_str().strip_prefix("--- ").context("no section")?;
    for section in rows.strip_suffix('\n').unwrap_or(rows).split("\n--- ") {
        answer_section(&rt, rt.alloc(), section)?;
    }
    Ok(())
}
