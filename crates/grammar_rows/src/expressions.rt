//! The expression of a source.

use crate::shown::shown;
use crate::tokens::scanned;
use anyhow::{Context, Result, bail};
use dart_grammar::loads::first_overload;
use dart_syntax::Tokens;
use expr_parser::{SyntaxFault, parse_expression};
use std::alloc::Global;
use std::str::from_utf8;

// The expression from the token of that number on; where others follow it, also the number of the first of these.
fn read(alloc: Global, is_placed: bool, tokens: &Tokens, from: u64) -> Result<String> {
    if let Some(at) = first_overload(alloc, tokens.items.as_slice())? {
        return Err(SyntaxFault::TooDeep { at }.into());
    }
    if from > tokens.items.len() {
        bail!("no token {from}");
    }
    let (tree, to) = parse_expression(alloc, tokens, from)?;
    let mut text = shown(alloc, is_placed, &tree)?;
    if to < tokens.items.len() {
        text.push_str(format!(in alloc; ", before token {to}")?.as_str())?;
    }
    Ok(text)
}

/// The expression with which the tokens begin, in words; where others follow it, also the number of the first of these.
pub fn expression(alloc: Global, tokens: &Tokens) -> Result<String> {
    read(alloc, false, tokens, 0)
}

/// The same, with places.
pub fn placed_expression(alloc: Global, tokens: &Tokens) -> Result<String> {
    read(alloc, true, tokens, 0)
}

/// The same, of a source `NUMBER SOURCE`, from the token of that number on.
pub fn from_a_token(alloc: Global, source: &[u8]) -> Result<String> {
    let (number, rest) = from_utf8(source)?.split_once(' ').context("no number")?;
    let tokens = scanned(alloc, 1, rest.as_bytes())?;
    read(alloc, true, &tokens, number.parse()?)
}
