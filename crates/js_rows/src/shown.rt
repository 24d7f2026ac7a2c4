//! What is printed of a run: each of its texts behind `> `, and then how it ended.

use code_units::{End, RunEnd, Shown, Text};
use js_tree::NamedTree;
use std::alloc::{AllocError, Global};

fn chars(alloc: Global, text: &Text) -> Result<String, AllocError> {
    String::from_utf16_lossy(alloc, text.as_slice())
}

// A value that nothing caught.
fn shown_text(alloc: Global, shown: &Shown) -> Result<String, AllocError> {
    match shown {
        Shown::Null => format!(in alloc; "null"),
        Shown::Bool(truth) => format!(in alloc; "{truth}"),
        Shown::Int(number) => format!(in alloc; "{number}"),
        Shown::Str(text) => format!(in alloc; "\"{}\"", chars(alloc, text)?),
        Shown::Class(name) => format!(in alloc; "class {}", chars(alloc, name)?),
    }
}

// The name of the file of this number.
fn name_of(alloc: Global, files: &[NamedTree], file: u32) -> Result<String, AllocError> {
    match files.get(file as usize) {
        Some(named) => chars(alloc, &named.name),
        None => Ok(String::new(alloc)),
    }
}

fn end_text(alloc: Global, files: &[NamedTree], end: &End) -> Result<String, AllocError> {
    match end {
        End::Done => format!(in alloc; "done"),
        End::Threw(shown) => format!(in alloc; "uncaught {}", shown_text(alloc, shown)?),
        End::Spent => format!(in alloc; "spent"),
        End::Left => format!(in alloc; "left"),
        End::Deep => format!(in alloc; "deep"),
        End::Stuck { file, at } => format!(in alloc;
            "stuck {} {at}",
            name_of(alloc, files, *file)?
        ),
    }
}

/// The lines of a run of these files.
pub fn run_text(alloc: Global, files: &[NamedTree], run: &RunEnd) -> Result<String, AllocError> {
    let mut lines = String::new(alloc);
    for text in run.output.as_slice() {
        writeln!(lines, "> {}", chars(alloc, text)?)?;
    }
    writeln!(lines, "{}", end_text(alloc, files, &run.end)?)?;
    Ok(lines)
}
