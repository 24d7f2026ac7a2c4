//! How texts begin, their characters, and what a `$` names.
ghost use Rattle.std.specs.Prelude.{◌≡◌, false, IfOk};
ghost use Rattle.dart_syntax.specs.Table as table;
ghost use Rattle.dart_syntax.specs.Texts as texts;
ghost use Rattle.dart_syntax.specs.Texts.{IsRun};
ghost use Rattle.dart_syntax.specs.Reader.{goes_on};
ghost use Rattle.dart_tokens.specs.Answers.{ShowsLevel};

use crate::bytes::{Class, before, is_digit, is_own, next, quote_of};
use crate::escapes::escape;
use crate::steps::{plain_text, word_of};
use crate::units::{push_escaped, push_units};
use code_units::Text;
use dart_syntax::{Form, Level, Word};
use std::alloc::{AllocError, Global};

fn quoted(raw: bool, bytes: &[u8]) -> Option<(Level, &[u8])>
    ensures { ShowsLevel result (texts.quoted raw bytes.now) }
{
    let (first, rest) = next(bytes)?;
    if first == b'"' {
        return Some((Level::Text { double: true, raw }, rest));
    }
    if first == b'\'' {
        return Some((Level::Text { double: false, raw }, rest));
    }
    None
}

/// The text that begins here, and what follows its quote.
pub fn opening(bytes: &[u8]) -> Option<(Level, &[u8])>
    ensures { ShowsLevel result (texts.opening bytes.now) }
{
    let (first, rest) = next(bytes)?;
    if first == b'r' {
        quoted(true, rest)
    } else {
        quoted(false, bytes)
    }
}

fn begins_twice(wanted: u8, bytes: &[u8]) -> bool
    ensures { result ≡ texts.begins_twice wanted bytes.now }
{
    let Some((first, rest)) = next(bytes) else {
        return false;
    };
    match next(rest) {
        Some((second, _)) => first == wanted && second == wanted,
        None => false,
    }
}

/// Whether the same quote stands twice more behind that of the text.
pub fn is_tripled(level: Level, bytes: &[u8]) -> bool
    ensures { result ≡ texts.is_tripled level bytes.now }
{
    match level {
        Level::Text { double, raw: _ } => begins_twice(quote_of(double), bytes),
        Level::Hole => false,
        Level::Brace => false,
    }
}

/// The units of a text as far as they go, and what follows them.
#[tactic(auto, using(dart_syntax::proofs::Parts::run_begin, dart_syntax::proofs::Parts::run_stretch, dart_syntax::proofs::Parts::run_escaped))]
pub fn run(
    alloc: Global,
    double: bool,
    raw: bool,
    bytes: &[u8],
) -> Result<(Text, &[u8]), AllocError>
    ensures run { IfOk result (λ x. IsRun double raw bytes.now x.0 x.1.now) }
    ensures stops { IfOk result (λ x. goes_on double raw x.1.now ≡ false) }
{
    let mut units = Text::new(alloc);
    let mut rest = bytes;
    'run: while let Some((b, more)) = next(rest) {
        let own = is_own(double, raw, b);
        if own {
            let after = Class::Own { double, raw }.past(rest);
            push_units(&mut units, before(rest, after))?;
            rest = after;
        } else {
            let escapes = !raw && b == b'\\';
            if !escapes {
                return Ok((units, rest));
            }
            match escape(more) {
                Some((escaped, after)) => {
                    push_escaped(&mut units, escaped)?;
                    rest = after;
                }
                None => return Ok((units, rest)),
            }
        }
    }
    Ok((units, rest))
}

fn is_named(text: &[u8]) -> bool
    ensures { result ≡ texts.is_named text.now }
{
    match next(text) {
        Some((first, _)) => !is_digit(first),
        None => false,
    }
}

#[tactic(auto, using(crate::proofs::Digits::other_word))]
fn this_alone(word: Word) -> Option<Form>
    ensures { result ≡ texts.this_alone word }
{
    if word == Word::This {
        Some(Form::Word(Word::This))
    } else {
        None
    }
}

/// The form of what stands behind a `$`, if it may.
pub fn form_behind(alloc: Global, text: &[u8]) -> Result<Option<Form>, AllocError>
    ensures { IfOk result (λ form. form ≡ texts.form_behind text.now (table.word_of text.now)) }
{
    match word_of(text) {
        Some(word) => Ok(this_alone(word)),
        None => {
            if is_named(text) {
                Ok(Some(Form::Name(plain_text(alloc, text)?)))
            } else {
                Ok(None)
            }
        }
    }
}
