//! The file that a source is.

use crate::outline::outline;
use crate::shown::shown_statements;
use crate::tokens::scanned;
use anyhow::{Result, bail};
use core_prelude::prelude;
use dart_grammar::FileTree;
use dart_grammar::declarations::Declaration;
use dart_grammar::trees::{Body, Stmt};
use dart_syntax::Tokens;
use decl_parser::parse_file;
use std::alloc::Global;
use std::str::from_utf8;

/// That the tokens are those of a file.
pub fn derived(alloc: Global, tokens: &Tokens) -> Result<String> {
    parse_file(alloc, tokens)?;
    Ok(String::from_str(alloc, "derived")?)
}

/// What the file declares.
pub fn outlined(alloc: Global, tokens: &Tokens) -> Result<String> {
    let tree = parse_file(alloc, tokens)?;
    Ok(outline(alloc, &tree)?)
}

// The statements of the function that is declared first.
fn first_statements(tree: &FileTree) -> Option<&[Stmt]> {
    match tree.declarations.as_slice() {
        [Declaration::Function(function), ..] => match &function.body {
            Body::Block(items) => Some(items.as_slice()),
            _ => None,
        },
        _ => None,
    }
}

/// The statements of the function that is declared first, in words.
pub fn statements(alloc: Global, tokens: &Tokens) -> Result<String> {
    let tree = parse_file(alloc, tokens)?;
    match first_statements(&tree) {
        Some(items) => Ok(shown_statements(alloc, items)?),
        None => bail!("no statements"),
    }
}

/// How many imports and declarations the file has.
pub fn counts(alloc: Global, tokens: &Tokens) -> Result<String> {
    let tree = parse_file(alloc, tokens)?;
    let (imports, declarations) = (tree.imports.len(), tree.declarations.len());
    Ok(format!(in alloc; "{imports} imports, {declarations} declarations")?)
}

/// How long the prelude's text is, and how many declarations it has as the file of this number.
pub fn prelude_file(alloc: Global, number: &[u8]) -> Result<String> {
    let text = prelude().as_bytes();
    let tokens = scanned(alloc, from_utf8(number)?.parse()?, text)?;
    let tree = parse_file(alloc, &tokens)?;
    let (length, declarations) = (text.len(), tree.declarations.len());
    Ok(format!(in alloc; "{length} bytes, {declarations} declarations")?)
}
