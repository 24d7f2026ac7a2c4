//! The rows of a text, and the files of a row.

use std::alloc::{AllocError, Global};

/// A row: the line behind `--- `, and the text up to the next such line, without its last line end.
#[derive(Clone, Copy)]
pub struct Row<'a> {
    pub heading: &'a str,
    pub body: &'a str,
}

/// A file of a row: the line behind `--> `, and the text up to the next such line, without its last line end.
#[derive(Clone, Copy)]
pub struct File<'a> {
    pub name: &'a str,
    pub text: &'a str,
}

// The first line, and what is behind its end.
fn off_first_line(text: &str) -> (&str, &str) {
    text.split_once('\n').unwrap_or((text, ""))
}

/// The rows of the text. What stands before the first one is no row.
pub fn rows<'a>(alloc: Global, text: &'a str) -> Result<Vec<Row<'a>>, AllocError> {
    let mut rows = Vec::new(alloc);
    let text = text.strip_suffix('\n').unwrap_or(text);
    for part in text.split("\n--- ").skip(1) {
        let (heading, body) = off_first_line(part);
        rows.push(Row { heading, body })?;
    }
    Ok(rows)
}

/// The files of a row. A row that begins with no name of a file is one file.
pub fn files<'a>(alloc: Global, body: &'a str) -> Result<Vec<File<'a>>, AllocError> {
    let mut files = Vec::new(alloc);
    match body.strip_prefix("--> ") {
        Some(named) => {
            for part in named.split("\n--> ") {
                let (name, text) = off_first_line(part);
                files.push(File { name, text })?;
            }
        }
        None => files.push(File {
            name: "out.js",
            text: body,
        })?,
    }
    Ok(files)
}
