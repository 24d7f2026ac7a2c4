//! The tree that bytes spell.

ghost use Rattle.std.specs.Prelude.{◌≡◌, ◌+◌, length, IfOk, IfErr};
ghost use Rattle.js_tree.specs.Spelling.{IsSpelled};
ghost use Rattle.js_reader.specs.Scanning.{tokens_of};
ghost use Rattle.js_reader.specs.Taking.{Gives};
ghost use Rattle.js_reader.specs.Parsing as spec;
ghost use Rattle.js_reader.specs.Faults.{IsFaultOf, OneFault, OneTree, OneTokenList, PrintedIsReadBack};

use crate::fault::JsFault;
use crate::grammar::{Grammar, expr, stmt};
use crate::source::Source;
use js_tree::{JsFile, JsItems};
use std::alloc::Global;

/// The items that these bytes spell.
#[tactic(auto, unfolding(crate::specs::Parsing::file_at))]
fn items_of(alloc: Global, bytes: &[u8]) -> Result<JsItems, JsFault>
    ensures { Gives (λ x. x) result (spec.file_at (length bytes.now) (length bytes.now + 1) (tokens_of (length bytes.now) bytes.now)) }
{
    let size = bytes.len();
    Grammar {
        source: Source { alloc, size },
        turns: size + 1,
        depth: size + 1,
        expr,
        stmt,
    }
    .items(bytes)
}

/// The tree that has these bytes as a spelling. Takes time in the number of bytes.
///
/// Errors: `NotInProfile` exactly where no tree has these bytes as a spelling, at the first token through which no file
/// begins.
pub fn read_file(alloc: Global, bytes: &[u8]) -> Result<JsFile, JsFault>
    ensures found { IfOk result (λ file. IsSpelled bytes.now file) }
    ensures fault { IfErr result (λ fault. IsFaultOf bytes.now fault) }
{
    match items_of(alloc, bytes) {
        Ok(items) => Ok(JsFile { items }),
        Err(fault) => Err(fault),
    }
}

/// A law: bytes have exactly one list of tokens.
pub fn one_token_list()
    ensures { OneTokenList }
{}

/// A law: tokens leave all files at one place alone.
pub fn one_fault()
    ensures { OneFault }
{}

/// A law: bytes are a spelling of at most one tree.
pub fn one_tree()
    ensures { OneTree }
{}

/// A law: a printed file that has a spelling is read back as the tree that was printed, but for its places.
pub fn printed_is_read_back()
    ensures { PrintedIsReadBack }
{}
