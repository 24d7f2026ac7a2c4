//! The rows of a text.

use anyhow::Result;
use bumpalo::Bump;
use code_units::Text;
use std::alloc::{AllocError, Global};
use store_lists::{SharedText, Slots};

/// A row: the line behind `--- `, and the lines up to the next such line. The line has a name, and behind `; ` what the row
/// asks for.
#[derive(Clone, Copy)]
pub struct Row<'a> {
    pub heading: &'a str,
    pub name: &'a str,
    pub asks: &'a str,
    pub body: &'a str,
}

fn row_of(part: &str) -> Row<'_> {
    let (heading, body) = part.split_once('\n').unwrap_or((part, ""));
    let (name, asks) = heading.split_once("; ").unwrap_or((heading, ""));
    Row {
        heading,
        name,
        asks,
        body,
    }
}

/// The rows of the text. What stands before the first one is no row.
pub fn rows<'a>(alloc: Global, text: &'a str) -> Result<Vec<Row<'a>>, AllocError> {
    let mut rows = Vec::new(alloc);
    let text = text.strip_suffix('\n').unwrap_or(text);
    for part in text.split("\n--- ").skip(1) {
        rows.push(row_of(part))?;
    }
    Ok(rows)
}

/// The numbers that tell which loads complete, behind `order`.
pub fn order_in(alloc: Global, asks: &str) -> Result<Vec<u32>> {
    let mut order = Vec::new(alloc);
    if let Some(numbers) = asks.strip_prefix("order ") {
        for number in numbers.split(' ') {
            order.push(number.parse::<u32>()?)?;
        }
    }
    Ok(order)
}

/// The names of the classes, behind `classes`.
pub fn names_in<'a>(
    alloc: Global,
    arena: &'a Bump,
    asks: &str,
) -> Result<Slots<SharedText<'a>>, AllocError> {
    let mut all = Slots::new(alloc);
    if let Some(names) = asks.strip_prefix("classes ") {
        for name in names.split(' ') {
            let name = Text::from_str(alloc, name)?;
            all.push(SharedText::copied(arena, name.as_slice())?)?;
        }
    }
    Ok(all)
}
