//! Imports, and the line that names the library.
ghost use Rattle.std.specs.Prelude.{length, []};
ghost use Rattle.decl_parser.specs.Files as spec;
ghost use Rattle.expr_parser.specs.Cursor.{Gives};
ghost use Rattle.expr_parser.specs.Knot.{inner_at};

use crate::bodies::built_in_at;
use crate::context::Context;
use code_units::Text;
use dart_grammar::begins::{begins_import, begins_library, next_built_in};
use dart_grammar::declarations::{Combinator, Import};
use dart_grammar::kinds::BuiltIn;
use dart_grammar::marks::{behind, next, next_sign};
use dart_grammar::trees::{Name, Names, Span};
use dart_syntax::{Form, Sign, Token};
use expr_parser::Fault;
use expr_parser::cursor::{name_at, sign_at, start};
use expr_parser::parts::{past_metadata, piece, text_close};
use sqlite_items::Items;
use std::alloc::Global;

// What opens a text, where it stands.
#[tactic(auto, unfolding(crate::specs::Files::text_open))]
fn text_open(ts: &[Token]) -> Result<(Span, &[Token]), Fault>
    ensures { Gives (λ x. (x.0, x.1.now)) result (spec.text_open ts.now) }
{
    let Some((first, rest)) = next(ts) else {
        return Err(Fault::NotDerived);
    };
    match &first.form {
        Form::TextOpen => {
            let span = Span {
                from: first.from,
                to: first.to,
            };
            Ok((span, rest))
        }
        _ => Err(Fault::NotDerived),
    }
}

// A text with no interpolation: what it stands for, and where it stands.
#[tactic(auto, unfolding(crate::specs::Files::plain_text))]
fn plain_text(ts: &[Token]) -> Result<((Text, Span), &[Token]), Fault>
    ensures { Gives (λ x. ((x.0.0, x.0.1), x.1.now)) result (spec.plain_text ts.now) }
{
    let (open, after) = text_open(ts)?;
    let (units, after) = piece(after)?;
    let (to, rest) = text_close(after)?;
    let span = Span {
        from: open.from,
        to,
    };
    Ok(((units, span), rest))
}

// Whether an import is deferred, and its prefix if it has one.
#[tactic(auto, unfolding(crate::specs::Files::may_have_prefix))]
fn may_have_prefix(ts: &[Token]) -> Result<((bool, Option<Name>), &[Token]), Fault>
    ensures { Gives (λ x. ((x.0.0, x.0.1), x.1.now)) result (spec.may_have_prefix ts.now) }
{
    if next_built_in(BuiltIn::Deferred, ts) {
        let (_, after) = built_in_at(BuiltIn::As, behind(ts))?;
        let (name, rest) = name_at(after)?;
        return Ok(((true, Some(name)), rest));
    }
    if next_built_in(BuiltIn::As, ts) {
        let (name, rest) = name_at(behind(ts))?;
        return Ok(((false, Some(name)), rest));
    }
    Ok(((false, None), ts))
}

// Names with commas between.
#[tactic(auto, using(expr_parser::proofs::Turns::one_turn, expr_parser::proofs::Turns::no_turn), unfolding(crate::specs::Files::names_from))]
fn names(alloc: Global, ts: &[Token]) -> Result<(Names, &[Token]), Fault>
    ensures { Gives (λ x. (x.0, x.1.now)) result (spec.names_from (length ts.now) [] ts.now) }
{
    let mut found = Items::new(alloc);
    let mut rest = ts;
    for _turn in 0..ts.len() {
        let (item, after) = name_at(rest)?;
        found.push(item)?;
        if !next_sign(Sign::Comma, after) {
            return Ok((found, after));
        }
        rest = behind(after);
    }
    Err(Fault::NotDerived)
}

// The names behind `show` or `hide`.
#[tactic(auto, unfolding(crate::specs::Files::combinator))]
fn combinator(alloc: Global, hides: bool, ts: &[Token]) -> Result<(Combinator, &[Token]), Fault>
    ensures { Gives (λ x. (x.0, x.1.now)) result (spec.combinator hides ts.now) }
{
    let (names, rest) = names(alloc, ts)?;
    Ok((Combinator { hides, names }, rest))
}

// What is shown and hidden.
#[tactic(auto, using(expr_parser::proofs::Turns::one_turn, expr_parser::proofs::Turns::no_turn), unfolding(crate::specs::Files::combinators_from))]
fn combinators(alloc: Global, ts: &[Token]) -> Result<(Items<Combinator>, &[Token]), Fault>
    ensures { Gives (λ x. (x.0, x.1.now)) result (spec.combinators_from (length ts.now) [] ts.now) }
{
    let mut found = Items::new(alloc);
    let mut rest = ts;
    for _turn in 0..ts.len() {
        let hides = next_built_in(BuiltIn::Hide, rest);
        if !hides && !next_built_in(BuiltIn::Show, rest) {
            return Ok((found, rest));
        }
        let (item, after) = combinator(alloc, hides, behind(rest))?;
        found.push(item)?;
        rest = after;
    }
    Err(Fault::NotDerived)
}

// Behind the name of a library and its `;`, in so many turns at most.
#[tactic(auto, using(expr_parser::proofs::Turns::one_turn, expr_parser::proofs::Turns::no_turn), unfolding(crate::specs::Files::library_name_from))]
fn past_library_name(turns: usize, ts: &[Token]) -> Result<&[Token], Fault>
    ensures { Gives (λ x. x.now) result (spec.library_name_from turns ts.now) }
{
    let mut rest = ts;
    for _turn in 0..turns {
        let (_, after) = name_at(rest)?;
        if !next_sign(Sign::Dot, after) {
            let (_, rest) = sign_at(Sign::Semicolon, after)?;
            return Ok(rest);
        }
        rest = behind(after);
    }
    Err(Fault::NotDerived)
}

/// Behind the line that names the library, if there is one.
#[tactic(auto, unfolding(crate::specs::Files::past_library))]
pub fn past_library(ts: &[Token]) -> Result<&[Token], Fault>
    ensures { Gives (λ x. x.now) result (spec.past_library ts.now) }
{
    if !begins_library(ts) {
        return Ok(ts);
    }
    past_library_name(ts.len(), behind(ts))
}

impl Context {
    #[tactic(auto, unfolding(crate::specs::Files::import))]
    fn import(self, ts: &[Token]) -> Result<(Import, &[Token]), Fault>
        ensures { Gives (λ x. (x.0, x.1.now)) result (spec.import (inner_at self.depth) ts.now) }
    {
        let after = past_metadata(self.alloc, ts, self.depth)?;
        let (_, after) = built_in_at(BuiltIn::Import, after)?;
        let ((uri, uri_span), after) = plain_text(after)?;
        let ((is_deferred, prefix), after) = may_have_prefix(after)?;
        let (combinators, after) = combinators(self.alloc, after)?;
        let (close, rest) = sign_at(Sign::Semicolon, after)?;
        let import = Import {
            span: Span {
                from: start(ts),
                to: close.to,
            },
            uri,
            uri_span,
            is_deferred,
            prefix,
            combinators,
        };
        Ok((import, rest))
    }

    /// Imports, as long as one begins here.
    #[tactic(auto, using(expr_parser::proofs::Turns::one_turn, expr_parser::proofs::Turns::no_turn), unfolding(crate::specs::Files::imports_from))]
    pub fn imports(self, ts: &[Token]) -> Result<(Items<Import>, &[Token]), Fault>
        ensures { Gives (λ x. (x.0, x.1.now)) result (spec.imports_from (inner_at self.depth) (length ts.now) [] ts.now) }
    {
        let mut found = Items::new(self.alloc);
        let mut rest = ts;
        for _turn in 0..ts.len() {
            if !begins_import(rest) {
                return Ok((found, rest));
            }
            let (item, after) = self.import(rest)?;
            found.push(item)?;
            rest = after;
        }
        Ok((found, rest))
    }
}
