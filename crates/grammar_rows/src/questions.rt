//! What is asked of sources.

use crate::built::built;
use crate::expressions::{expression, from_a_token, placed_expression};
use crate::files::{counts, derived, outlined, prelude_file, statements};
use crate::looks::told;
use crate::tokens::{in_words, places, scanned, units};
use anyhow::Result;
use std::alloc::Global;

/// The answer to the question about the source.
///
/// - `tokens`, `places`, `units`: its tokens in words; where they stand; the code units of its texts.
/// - `expression`: the expression with which it begins, and at which token what follows begins. `placed expression`: the
///   same with places. `expression from`: the same, from the token on whose number stands before the source.
/// - `derived`, `derived as the prelude`: whether it is a file of the language, or of the prelude.
/// - `outline`, `statements`, `counts`: what a file declares; the statements of the function that is declared first; how
///   many imports and declarations there are.
/// - `prelude`: how long the prelude's text is, and how many declarations it has as the file of this number.
/// - `built`: what is told of a tree that is built with no parser.
/// - what [`told`] tells of its tokens.
pub fn answered(alloc: Global, question: &str, source: &[u8]) -> Result<String> {
    match question {
        "tokens" => in_words(alloc, &scanned(alloc, 1, source)?),
        "places" => places(alloc, &scanned(alloc, 7, source)?),
        "units" => units(alloc, &scanned(alloc, 1, source)?),
        "expression" => expression(alloc, &scanned(alloc, 1, source)?),
        "placed expression" => placed_expression(alloc, &scanned(alloc, 1, source)?),
        "expression from" => from_a_token(alloc, source),
        "derived" => derived(alloc, &scanned(alloc, 1, source)?),
        "derived as the prelude" => derived(alloc, &scanned(alloc, 0, source)?),
        "outline" => outlined(alloc, &scanned(alloc, 1, source)?),
        "statements" => statements(alloc, &scanned(alloc, 1, source)?),
        "counts" => counts(alloc, &scanned(alloc, 1, source)?),
        "prelude" => prelude_file(alloc, source),
        "built" => built(alloc, source),
        _ => told(alloc, question, &scanned(alloc, 1, source)?),
    }
}
