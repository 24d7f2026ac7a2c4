//! Trees that no file was read for.

use crate::files::printed;
use anyhow::{Result, bail};
use js_tree::{
    JsExpr, JsFile, JsFunction, JsHead, JsItem, JsOperator, JsPrimary, JsSelector, JsStmt,
};
use sqlite_items::{Boxed, Items};
use std::alloc::{AllocError, Global};

fn name(alloc: Global, text: &str) -> Result<Items<u8>, AllocError> {
    Items::from_slice(alloc, text.as_bytes())
}

fn alone(alloc: Global, head: JsHead) -> JsPrimary {
    JsPrimary {
        head,
        selectors: Items::new(alloc),
    }
}

fn variable(alloc: Global, value: JsExpr) -> Result<JsItem, AllocError> {
    Ok(JsItem::Var {
        at: 7,
        name: name(alloc, "v$")?,
        value,
    })
}

fn empty_function(alloc: Global) -> Result<JsItem, AllocError> {
    Ok(JsItem::Declared {
        name: name(alloc, "f$")?,
        function: JsFunction {
            parameters: Items::new(alloc),
            body: Items::new(alloc),
        },
    })
}

fn comparison(alloc: Global) -> Result<JsItem, AllocError> {
    let left = alone(alloc, JsHead::Name(name(alloc, "x$")?));
    let right = alone(alloc, JsHead::Negative(9007199254740991));
    let value = JsExpr::Binary(
        JsOperator::LessEqual,
        Boxed::new(alloc, left)?,
        Boxed::new(alloc, right)?,
    );
    variable(alloc, value)
}

// A quote, a backslash, LF, DEL, a character above FFFF by its two units, and the last unit that stands for itself.
fn string(alloc: Global) -> Result<JsItem, AllocError> {
    let units = Items::from_slice(alloc, &[34, 92, 10, 127, 55357, 56832, 126])?;
    variable(alloc, JsExpr::Primary(alone(alloc, JsHead::Str(units))))
}

fn called(alloc: Global, function: &str) -> Result<JsStmt, AllocError> {
    let mut selectors = Items::new(alloc);
    selectors.push(JsSelector::Call(Items::new(alloc)))?;
    let head = JsHead::Name(name(alloc, function)?);
    Ok(JsStmt::Perform {
        at: 0,
        primary: JsPrimary { head, selectors },
    })
}

fn call_in_loop(alloc: Global) -> Result<JsItem, AllocError> {
    let mut body = Items::new(alloc);
    body.push(called(alloc, "f$")?)?;
    Ok(JsItem::Statement(JsStmt::Loop { at: 3, body }))
}

fn built(alloc: Global, name: &str) -> Result<JsItem> {
    let item = match name {
        "an empty function" => empty_function(alloc)?,
        "a comparison" => comparison(alloc)?,
        "the units of a string" => string(alloc)?,
        "a call in a loop" => call_in_loop(alloc)?,
        _ => bail!("no tree has this name"),
    };
    Ok(item)
}

/// The text of the tree of this name.
pub fn built_file(alloc: Global, name: &str) -> Result<String> {
    let mut items = Items::new(alloc);
    items.push(built(alloc, name)?)?;
    printed(alloc, &JsFile { items })
}
