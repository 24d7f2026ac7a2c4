//! The trees of a row's files.
ghost use Rattle.std.specs.Prelude.{◌<◌, length, IfOk, IfSome};
ghost use Rattle.js_meaning.specs.Laws.{HaveOwnNames};

use crate::rows::{File, files};
use anyhow::{Context, Result, bail};
use code_units::Text;
use js_reader::read_file;
use js_tree::{NamedTree, TreeList};
use sqlite_items::Items;
use std::alloc::{AllocError, Global};

fn named(alloc: Global, file: &File) -> Result<NamedTree> {
    let name = Text::from_str(alloc, file.name)?;
    let tree = read_file(alloc, file.text.as_bytes())?;
    Ok(NamedTree { name, tree })
}

// The one file.
fn alone(alloc: Global, file: NamedTree) -> Result<TreeList, AllocError>
    ensures some { IfOk result (λ files. 0 < length files) }
    ensures own_names { IfOk result HaveOwnNames }
{
    let mut files = Items::new(alloc);
    files.push(file)?;
    Ok(files)
}

// The files in this order; none where two have one name.
fn in_order(
    alloc: Global,
    a: NamedTree,
    b: NamedTree,
    main: NamedTree,
) -> Result<Option<TreeList>, AllocError>
    ensures some { IfOk result (λ some. IfSome some (λ files. 0 < length files)) }
    ensures own_names { IfOk result (λ some. IfSome some HaveOwnNames) }
{
    if a.name == b.name || a.name == main.name || b.name == main.name {
        return Ok(None);
    }
    let mut files = Items::new(alloc);
    files.push(a)?;
    files.push(b)?;
    files.push(main)?;
    Ok(Some(files))
}

/// The trees of the one file of a row, or of its three, the main one last.
pub fn trees_of(alloc: Global, body: &str) -> Result<TreeList>
    ensures some { IfOk result (λ files. 0 < length files) }
    ensures own_names { IfOk result HaveOwnNames }
{
    let files = files(alloc, body)?;
    match files.as_slice() {
        [file] => Ok(alone(alloc, named(alloc, file)?)?),
        [a, b, main] => {
            let a = named(alloc, a)?;
            let b = named(alloc, b)?;
            let main = named(alloc, main)?;
            in_order(alloc, a, b, main)?.context("two files have one name")
        }
        _ => bail!("a row has one file or three"),
    }
}
