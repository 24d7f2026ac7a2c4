//! One token at a place.
ghost use Rattle.std.specs.Prelude.{◌≡◌};
ghost use Rattle.dart_grammar.specs.Grammar as grammar;
ghost use Rattle.dart_grammar.specs.Trees as trees;
ghost use Rattle.expr_parser.specs.Cursor as spec;
ghost use Rattle.expr_parser.specs.Cursor.{Gives};

use crate::fault::Fault;
use dart_grammar::marks::{is_sign, is_word, next};
use dart_grammar::trees::{Name, Span};
use dart_syntax::{Form, Sign, Token, Word};

/// The bytes of a token.
fn span_of_token(token: &Token) -> Span
    ensures { result ≡ trees.span token.now.from token.now.to }
{
    Span {
        from: token.from,
        to: token.to,
    }
}

/// Where the first token begins; 0 where there is none.
pub fn start(ts: &[Token]) -> u32
    ensures { result ≡ grammar.start ts.now }
{
    match next(ts) {
        Some((first, _)) => first.from,
        None => 0,
    }
}

/// The sign, and where it stands.
#[tactic(auto, unfolding(crate::specs::Cursor::sign_at))]
pub fn sign_at(sign: Sign, ts: &[Token]) -> Result<(Span, &[Token]), Fault>
    ensures { Gives (λ x. (x.0, x.1.now)) result (spec.sign_at sign ts.now) }
{
    match next(ts) {
        Some((first, rest)) if is_sign(sign, &first.form) => Ok((span_of_token(first), rest)),
        _ => Err(Fault::NotDerived),
    }
}

/// The reserved word, and where it stands.
#[tactic(auto, unfolding(crate::specs::Cursor::word_at))]
pub fn word_at(word: Word, ts: &[Token]) -> Result<(Span, &[Token]), Fault>
    ensures { Gives (λ x. (x.0, x.1.now)) result (spec.word_at word ts.now) }
{
    match next(ts) {
        Some((first, rest)) if is_word(word, &first.form) => Ok((span_of_token(first), rest)),
        _ => Err(Fault::NotDerived),
    }
}

/// A copy of the name.
#[tactic(auto, unfolding(crate::specs::Cursor::name_at))]
pub fn name_at(ts: &[Token]) -> Result<(Name, &[Token]), Fault>
    ensures { Gives (λ x. (x.0, x.1.now)) result (spec.name_at ts.now) }
{
    let Some((first, rest)) = next(ts) else {
        return Err(Fault::NotDerived);
    };
    match &first.form {
        Form::Name(text) => {
            let text = text.copy()?;
            let span = span_of_token(first);
            Ok((Name { text, span }, rest))
        }
        _ => Err(Fault::NotDerived),
    }
}
