//! The tree of a file.
ghost use Rattle.std.specs.Prelude.{◌<◌, ◌^◌, length};
ghost use Rattle.decl_parser.specs.Parsed.{is_prelude};
ghost use Rattle.source_loading.specs.Texts.{TextTells};

use dart_grammar::FileTree;
use dart_syntax::Rule;
use dart_tokens::{ScanError, scan};
use decl_parser::parse_file;
use expr_parser::SyntaxFault;
use std::alloc::Global;

/// Why bytes have no tree.
#[derive(Clone, Copy, Debug, PartialEq, Eq)]
pub enum TextFault {
    /// The first rule that they break, and the offset in bytes at which they do.
    Broken { rule: Rule, at: u32 },
    /// Memory was wanting.
    Memory,
}

/// The tree of the file of this number, which has these bytes. File 0 may have native bodies.
#[tactic(auto, using(crate::proofs::Spelled::scan_broken, crate::proofs::Spelled::too_deep, crate::proofs::Spelled::not_derived, crate::proofs::Spelled::spelled))]
pub fn tree_of(alloc: Global, number: u32, bytes: &[u8]) -> Result<FileTree, TextFault>
    requires { length bytes.now < 2 ^ 32 }
    ensures { TextTells (is_prelude number) bytes.now result }
{
    let tokens = match scan(alloc, number, bytes) {
        Ok(tokens) => tokens,
        Err(ScanError::Fault { at, rule }) => return Err(TextFault::Broken { rule, at }),
        Err(ScanError::Memory) => return Err(TextFault::Memory),
    };
    match parse_file(alloc, &tokens) {
        Ok(tree) => Ok(tree),
        Err(SyntaxFault::TooDeep { at }) => Err(TextFault::Broken { rule: Rule::G2, at }),
        Err(SyntaxFault::NotDerived { at }) => Err(TextFault::Broken { rule: Rule::G1, at }),
        Err(SyntaxFault::Memory) => Err(TextFault::Memory),
    }
}
