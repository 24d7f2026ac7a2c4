//! What is printed of a file.

use anyhow::{Context, Result};
use js_reader::{JsFault, read_file};
use js_tree::{JsExpr, JsFile, JsHead, JsItem, JsPrimary, JsStmt, print_file};
use std::alloc::Global;

/// The text of the tree.
pub fn printed(alloc: Global, tree: &JsFile) -> Result<String> {
    let bytes = print_file(alloc, tree)?;
    let text = str::from_utf8(bytes.as_slice())?;
    Ok(String::from_str(alloc, text)?)
}

// The file with `^` in front of this byte.
fn marked(alloc: Global, file: &str, at: u64) -> Result<String> {
    let (front, back) = file
        .split_at_checked(at as usize)
        .context("the place is within a character")?;
    Ok(format!(in alloc; "{front}^{back}")?)
}

/// The text of the file's tree. Where it has none, the file with `^` where it leaves all files that have one.
pub fn read(alloc: Global, file: &str) -> Result<String> {
    match read_file(alloc, file.as_bytes()) {
        Ok(tree) => printed(alloc, &tree),
        Err(JsFault::NotInProfile { at }) => marked(alloc, file, at),
        Err(fault) => Err(fault.into()),
    }
}

// The units of the string that the first statement assigns.
fn assigned(file: &JsFile) -> Option<&[u16]> {
    match file.items.get(0) {
        Some(
            JsItem::Statement(
                JsStmt::Assign {
                    value: JsExpr::Primary(
                        JsPrimary {
                            head: JsHead::Str(units),
                            ..
                        },
                    ),
                    ..
                },
            ),
        ) => Some(units.as_slice()),
        _ => None,
    }
}

/// The units of the string that the first statement of the file assigns.
pub fn units(alloc: Global, file: &str) -> Result<String> {
    let tree = read_file(alloc, file.as_bytes())?;
    let units = assigned(&tree).context("no string is assigned first")?;
    Ok(format!(in alloc; "{units:?}\n")?)
}

// The place of the first statement, if it stores.
fn stores_at(file: &JsFile) -> Option<u64> {
    match file.items.get(0) {
        Some(JsItem::Statement(JsStmt::Store { at, .. })) => Some(*at),
        _ => None,
    }
}

/// The place of the first statement of the file, which stores.
pub fn place(alloc: Global, file: &str) -> Result<String> {
    let tree = read_file(alloc, file.as_bytes())?;
    let at = stores_at(&tree).context("nothing is stored first")?;
    Ok(format!(in alloc; "{at}\n")?)
}
