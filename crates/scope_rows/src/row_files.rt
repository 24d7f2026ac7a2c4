//! The files of rows, and their programs.

use anyhow::Result;
use code_units::{Bytes, Files, NamedFile, Text};
use library_scopes::{ScopeError, Scopes, resolve};
use source_programs::program;
use std::alloc::{AllocError, Global};

// The name and the text of a line `NAME.dart: TEXT`.
fn other(line: &str) -> Option<(&str, &str)> {
    let (name, text) = line.split_once(':')?;
    if name.ends_with(".dart") {
        Some((name, text.strip_prefix(' ').unwrap_or(text)))
    } else {
        None
    }
}

/// Whether the line is another file than the entry.
pub fn is_other(line: &str) -> bool {
    other(line).is_some()
}

fn file(alloc: Global, name: &str, text: &str) -> Result<NamedFile, AllocError> {
    let name = Text::from_str(alloc, name)?;
    let bytes = Bytes::from_vec(text.as_bytes().to_vec(alloc)?);
    Ok(NamedFile { name, bytes })
}

/// The entry `a.dart`, and the other files among the lines.
pub fn row_files(alloc: Global, entry: &str, lines: &str) -> Result<Files, AllocError> {
    let mut files = Files::new(alloc);
    files.push(file(alloc, "a.dart", entry)?)?;
    for line in lines.split('\n') {
        if let Some((name, text)) = other(line) {
            files.push(file(alloc, name, text)?)?;
        }
    }
    Ok(files)
}

/// What names mean in the program of the files.
pub fn resolved(alloc: Global, files: &Files) -> Result<Result<Scopes, ScopeError>> {
    let program = program(alloc, files)?;
    Ok(resolve(alloc, &program))
}
