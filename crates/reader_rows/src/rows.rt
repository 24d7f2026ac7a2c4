//! The rows of a text.

use std::alloc::{AllocError, Global};

/// A row: the line behind `--- `, and the text up to the next such line, without its last line end. The line has a name, and
/// behind `; ` what the row asks for.
#[derive(Clone, Copy)]
pub struct Row<'a> {
    pub heading: &'a str,
    pub name: &'a str,
    pub asks: &'a str,
    pub body: &'a str,
}

fn row_of(part: &str) -> Row<'_> {
    let (heading, body) = part.split_once('\n').unwrap_or((part, ""));
    let (name, asks) = heading.split_once("; ").unwrap_or((heading, ""));
    Row {
        heading,
        name,
        asks,
        body,
    }
}

/// The rows of the text. What stands before the first one is no row.
pub fn rows<'a>(alloc: Global, text: &'a str) -> Result<Vec<Row<'a>>, AllocError> {
    let mut rows = Vec::new(alloc);
    let text = text.strip_suffix('\n').unwrap_or(text);
    for part in text.split("\n--- ").skip(1) {
        rows.push(row_of(part))?;
    }
    Ok(rows)
}
