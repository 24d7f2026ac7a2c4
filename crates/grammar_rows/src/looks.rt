//! What is told by a look at tokens.

use anyhow::{Result, bail};
use dart_grammar::loads::first_overload;
use dart_grammar::marks::{joins, looseness, next_text_open};
use dart_grammar::shapes::{
    begins_clause, begins_map, begins_type, for_kind_of, kind_of, opens_function,
};
use dart_syntax::Tokens;
use std::alloc::{AllocError, Global};

fn said(alloc: Global, holds: bool) -> Result<String, AllocError> {
    String::from_str(alloc, if holds { "yes" } else { "no" })
}

/// What the look of this name tells: the kind of a statement, or of a `for` behind its parenthesis; whether what is behind
/// a parenthesis belongs to a function; what begins; how loosely an operator binds; whether a token joins what is before
/// it; where the first token is that is nested too deep.
pub fn told(alloc: Global, look: &str, tokens: &Tokens) -> Result<String> {
    let ts = tokens.items.as_slice();
    Ok(match look {
        "kind" => format!(in alloc; "{:?}", kind_of(ts))?,
        "for kind" => format!(in alloc; "{:?}", for_kind_of(ts))?,
        "opens a function" => said(alloc, opens_function(ts))?,
        "begins a type" => said(alloc, begins_type(ts))?,
        "begins a map" => said(alloc, begins_map(ts))?,
        "begins a clause" => said(alloc, begins_clause(ts))?,
        "begins a text" => said(alloc, next_text_open(ts))?,
        "joins" => said(alloc, joins(ts))?,
        "looseness" => format!(in alloc; "{}", looseness(ts))?,
        "first overload" => format!(in alloc; "{:?}", first_overload(alloc, ts)?)?,
        _ => bail!("no question {look}"),
    })
}
