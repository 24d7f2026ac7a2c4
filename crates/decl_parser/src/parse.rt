//! Files.
ghost use Rattle.std.specs.Prelude.{◌≡◌, None, IfOk, IfErr, OnOk};
ghost use Rattle.dart_grammar.specs.Declarations.{IsFile};
ghost use Rattle.dart_grammar.specs.Loads.{first_overload};
ghost use Rattle.decl_parser.specs.Files.{file_at};
ghost use Rattle.decl_parser.specs.Parsed.{is_prelude, IsFaultOf};
ghost use Rattle.expr_parser.specs.Cursor.{Gives};

use crate::context::Context;
use dart_grammar::FileTree;
use dart_grammar::loads::first_overload;
use dart_syntax::{Token, Tokens};
use expr_parser::{Fault, SyntaxFault};
use std::alloc::Global;

// The tree of a file's tokens. What nests in it nests no deeper than there are tokens.
fn file_of(alloc: Global, ts: &[Token], native: bool) -> Result<FileTree, Fault>
    ensures { Gives (λ x. x) result (file_at native ts.now) }
{
    let context = Context {
        alloc,
        depth: ts.len(),
        native,
    };
    context.file(ts)
}

/// The tree of a file. Its bodies may be native if it is file 0, the prelude.
///
/// Errors: [`SyntaxFault::TooDeep`] where a token is nested too deep, at the first such token; else
/// [`SyntaxFault::NotDerived`] where no tree derives the tokens, at the place 0 so far; [`SyntaxFault::Memory`].
#[tactic(auto, using(crate::proofs::Found::is_file, crate::proofs::Found::has_no_tree))]
pub fn parse_file(alloc: Global, tokens: &Tokens) -> Result<FileTree, SyntaxFault>
    ensures found { IfOk result (λ tree. IsFile (is_prelude tokens.now.file) tokens.now.items tree) }
    ensures shallow { OnOk result (first_overload tokens.now.items ≡ None) }
    ensures fault { IfErr result (λ fault. IsFaultOf (is_prelude tokens.now.file) tokens.now.items fault) }
{
    let ts = tokens.items.as_slice();
    match first_overload(alloc, ts) {
        Ok(None) => {}
        Ok(Some(at)) => return Err(SyntaxFault::TooDeep { at }),
        Err(_) => return Err(SyntaxFault::Memory),
    }
    match file_of(alloc, ts, tokens.file == 0) {
        Ok(tree) => Ok(tree),
        Err(Fault::NotDerived) => Err(SyntaxFault::NotDerived { at: 0 }),
        Err(Fault::Memory) => Err(SyntaxFault::Memory),
    }
}
