//! The rules that programs break.

use anyhow::{Context, Result};
use class_hierarchy::building::{ClassError, build};
use code_units::{Files, NamedFile};
use dart_program::{Program, Refusal};
use library_scopes::{ScopeError, resolve};
use program_rules::bodies::first_broken;
use source_programs::program;
use std::alloc::Global;
use std::str::from_utf8;

// The files are numbered from 1 on, behind the prelude.
fn file_of<'f>(files: &'f Files, number: u32) -> Option<&'f NamedFile> {
    let before = number.checked_sub(1)?;
    files.as_slice().get(before as usize)
}

// The rule and the file, whose text has `^` at the place.
fn marked(alloc: Global, files: &Files, refusal: Refusal) -> Result<String> {
    let file = file_of(files, refusal.file).context("no such file")?;
    let text = from_utf8(file.bytes.as_slice())?;
    let place = text.split_at_checked(refusal.at as usize);
    let (before, behind) = place.context("no such place")?;
    let name = file.name.to_utf8()?;
    let name = from_utf8(name.as_slice())?;
    let rule = refusal.rule;
    Ok(format!(in alloc; "{rule:?} {name}: {before}^{behind}")?)
}

/// Which rules are looked at. Those of libraries come first, and then those of classes.
#[derive(Clone, Copy, PartialEq, Eq)]
pub enum Phase {
    Libraries,
    Classes,
    Bodies,
}

fn first_refusal(alloc: Global, phase: Phase, program: Program) -> Result<Option<Refusal>> {
    let scopes = match resolve(alloc, &program) {
        Ok(scopes) => scopes,
        Err(ScopeError::Broken(refusal)) => return Ok(Some(refusal)),
        Err(error) => return Err(error.into()),
    };
    if phase == Phase::Libraries {
        return Ok(None);
    }
    let resolved = match build(alloc, program, scopes) {
        Ok(resolved) => resolved,
        Err(ClassError::Broken(refusal)) => return Ok(Some(refusal)),
        Err(error) => return Err(error.into()),
    };
    if phase == Phase::Classes {
        return Ok(None);
    }
    Ok(first_broken(alloc, &resolved)?)
}

/// The first rule of these that the program of the files breaks, and where.
pub fn refused(alloc: Global, phase: Phase, files: &Files) -> Result<String> {
    let program = program(alloc, files)?;
    match first_refusal(alloc, phase, program)? {
        Some(refusal) => marked(alloc, files, refusal),
        None => Ok(String::from_str(alloc, "no rule is broken")?),
    }
}
