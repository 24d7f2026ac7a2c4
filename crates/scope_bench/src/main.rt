//! Reads the files that the arguments name behind a command and a number, the entry first, and does as the command says.
//!
//! `read` says how many declarations the last file has. `resolve` also finds what names mean in the libraries of the files,
//! and says how many these are. `look` then looks up so many names in the entry, and `behind` behind the first prefix: those
//! that the last file declares, over and over. Both say how many were found. `build` also makes the hierarchy of the program,
//! and says how many classes and selectors that has; `bodies` then looks for the first rule of bodies that is broken, and says
//! whether there is one. It ends with status 1 and the reason where the words are others, a file can't be read, the files are
//! no program, or they break a rule of libraries, or for the last two commands of classes.
#![tactic(auto)]

use anyhow::{Context, Result, bail};
use class_hierarchy::{Hierarchy, Resolved, build};
use code_units::{Bytes, Files, NamedFile, Text};
use dart_grammar::declarations::Declaration;
use dart_program::Program;
use library_scopes::{Scopes, resolve};
use program_rules::bodies::first_broken;
use source_programs::program;
use std::alloc::Global;
use std::{env, fs};

// The name that a declaration gives, where it gives one.
fn name_of(declaration: &Declaration) -> Option<&Text> {
    match declaration {
        Declaration::Class(class) => Some(&class.name.text),
        Declaration::Alias(alias) => Some(&alias.name.text),
        Declaration::Function(function) => Some(&function.name.text),
        Declaration::Getter(getter) => Some(&getter.name.text),
        Declaration::Setter(setter) => Some(&setter.name.text),
        Declaration::Variables(_, _) => None,
    }
}

// What the last file declares.
fn last_declarations(program: &Program) -> &[Declaration] {
    match program.files().as_slice().last() {
        Some(file) => file.tree.declarations.as_slice(),
        None => &[],
    }
}

// Whether the name means something in the entry, or behind the first prefix.
fn is_found(scopes: &Scopes, is_behind: bool, name: &Text) -> bool {
    if is_behind {
        scopes.behind(0, name).is_some()
    } else {
        scopes.lookup(1, name).is_some()
    }
}

// Of so many look-ups of what is declared, over and over, how many find something.
fn found(scopes: &Scopes, is_behind: bool, declarations: &[Declaration], count: u64) -> u64 {
    let mut found: u64 = 0;
    let mut rest = declarations;
    for _ in 0..count {
        if rest.is_empty() {
            rest = declarations;
        }
        if let Some((declaration, more)) = rest.split_first() {
            rest = more;
            if let Some(name) = name_of(declaration)
                && is_found(scopes, is_behind, name)
            {
                found = found.wrapping_add(1);
            }
        }
    }
    found
}

// The program of the files, with its classes.
fn built(alloc: Global, files: &Files) -> Result<Resolved> {
    let program = program(alloc, files)?;
    let scopes = resolve(alloc, &program)?;
    Ok(build(alloc, program, scopes)?)
}

// How many libraries there are, or how many look-ups find something.
fn resolved(
    alloc: Global,
    command: &str,
    count: u64,
    scopes: &Scopes,
    declarations: &[Declaration],
) -> Result<String> {
    match command {
        "resolve" => Ok(format!(in alloc; "{} libraries", scopes.libraries.len())?),
        "look" => Ok(format!(in alloc; "{} found", found(scopes, false, declarations, count))?),
        "behind" => Ok(format!(in alloc; "{} found", found(scopes, true, declarations, count))?),
        _ => bail!("the commands are `read`, `resolve`, `look`, `behind`, `build` and `bodies`"),
    }
}

// The same, or how many declarations the last file has.
fn counted(alloc: Global, command: &str, count: u64, files: &Files) -> Result<String> {
    let program = program(alloc, files)?;
    let declarations = last_declarations(&program);
    if command == "read" {
        return Ok(format!(in alloc; "{} declarations", declarations.len())?);
    }
    let scopes = resolve(alloc, &program)?;
    resolved(alloc, command, count, &scopes, declarations)
}

fn sizes(alloc: Global, hierarchy: &Hierarchy) -> Result<String> {
    let classes = hierarchy.classes.len();
    let selectors = hierarchy.selectors.len();
    Ok(format!(in alloc; "{classes} classes, {selectors} selectors")?)
}

fn verdict(is_broken: bool) -> &'static str {
    if is_broken {
        "a rule is broken"
    } else {
        "no rule is broken"
    }
}

// How many classes and selectors the hierarchy has.
fn made(alloc: Global, files: &Files) -> Result<String> {
    let resolved = built(alloc, files)?;
    sizes(alloc, resolved.hierarchy())
}

// Whether a rule of bodies is broken.
fn checked(alloc: Global, files: &Files) -> Result<String> {
    let resolved = built(alloc, files)?;
    let broken = first_broken(alloc, &resolved)?;
    Ok(String::from_str(alloc, verdict(broken.is_some()))?)
}

fn answer(alloc: Global, command: &str, count: u64, files: &Files) -> Result<String> {
    match command {
        "build" => made(alloc, files),
        "bodies" => checked(alloc, files),
        _ => counted(alloc, command, count, files),
    }
}

fn main(rt: HostRuntime) -> Result<()> {
    let mut words = env::args(&rt)?.skip(1);
    let command = words.next().context("no command is given")?;
    let count = words.next().context("no number is given")?;
    let count: u64 = count.as_str().parse()?;
    let mut files = Files::new(rt.alloc());
    for word in words {
        files.push(NamedFile {
            name: Text::from_str(rt.alloc(), word.as_str())?,
            bytes: Bytes::from_vec(fs::read(&rt, word.as_str())?),
        })?;
    }
    println!(rt; "{}", answer(rt.alloc(), command.as_str(), count, &files)?)?;
    Ok(())
}
