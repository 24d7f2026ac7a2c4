//! One gap or token of code.
ghost use Rattle.std.specs.Prelude.{◌≡◌, ◌≤◌, ◌+◌, length, IfOk};
ghost use Rattle.dart_syntax.specs.Table as table;
ghost use Rattle.dart_syntax.specs.Gaps as gaps;
ghost use Rattle.dart_syntax.specs.Reader as reader;
ghost use Rattle.dart_tokens.specs.Answers.{step_shown, ShowsRest};

use crate::bytes::{
    Class, before, behind, is_blank, is_digit, is_hex, is_start, next, next_is, tail,
};
use crate::numbers::{LIMIT, value_of};
use code_units::Text;
use dart_syntax::words::{SIGNS, WORDS};
use dart_syntax::{Form, Rule, Sign, Word};
use std::alloc::{AllocError, Global};

/// A gap, a token's form, or a broken rule, and what is left behind it.
#[derive(Drop)]
pub enum Step<'a> {
    Gap(&'a [u8]),
    Found(Form, &'a [u8]),
    Broken(Rule, &'a [u8]),
}

/// The word that these bytes spell.
pub fn word_of(text: &[u8]) -> Option<Word>
    ensures { result ≡ table.word_of text.now }
{
    WORDS.iter().copied().find(|word| word.spelling() == text)
}

// The longest sign that these bytes begin with.
fn sign_of(bytes: &[u8]) -> Option<Sign>
    ensures { result ≡ reader.sign_of bytes.now }
{
    SIGNS
        .iter()
        .copied()
        .find(|sign| bytes.starts_with(sign.spelling()))
}

/// A text of these units, each a byte.
pub fn plain_text(alloc: Global, bytes: &[u8]) -> Result<Text, AllocError>
    ensures { IfOk result (λ text. text ≡ bytes.now) }
{
    let mut text = Text::new(alloc);
    let mut rest = bytes;
    'bytes: while let Some((b, more)) = next(rest) {
        text.push(u16::from(b))?;
        rest = more;
    }
    Ok(text)
}

#[tactic(auto, using(dart_syntax::proofs::Fronts::front_take), unfolding(dart_syntax::specs::Reader::word_step))]
fn word_step(alloc: Global, bytes: &[u8]) -> Result<Step<'_>, AllocError>
    ensures { IfOk result (λ s. step_shown s ≡ reader.word_step bytes.now) }
{
    let rest = Class::Part.past(bytes);
    let text = before(bytes, rest);
    match word_of(text) {
        Some(word) => Ok(Step::Found(Form::Word(word), rest)),
        None => Ok(Step::Found(Form::Name(plain_text(alloc, text)?), rest)),
    }
}

// Whether a double goes on so behind its first digits.
fn goes_on_as_double(bytes: &[u8]) -> bool
    ensures { result ≡ table.goes_on_as_double bytes.now }
{
    let Some((first, rest)) = next(bytes) else {
        return false;
    };
    let exponent = first == b'e' || first == b'E';
    match next(rest) {
        Some((second, _)) => exponent || (first == b'.' && is_digit(second)),
        None => exponent,
    }
}

fn numbered(value: u64, rest: &[u8]) -> Step<'_>
    ensures { step_shown result ≡ reader.numbered value rest.now }
{
    if value > LIMIT {
        return Step::Broken(Rule::S6, rest);
    }
    if goes_on_as_double(rest) {
        return Step::Broken(Rule::S7, rest);
    }
    Step::Found(Form::Number(value), rest)
}

// Whether a hexadecimal number begins here.
fn begins_hex(bytes: &[u8]) -> bool
    ensures { result ≡ reader.begins_hex bytes.now }
{
    let Some((first, after_first)) = next(bytes) else {
        return false;
    };
    let Some((second, after_second)) = next(after_first) else {
        return false;
    };
    match next(after_second) {
        Some((third, _)) => {
            (first == b'0' && (second == b'x' || second == b'X')) && is_hex(third)
        }
        None => false,
    }
}

#[tactic(auto, using(dart_syntax::proofs::Fronts::front_take), unfolding(dart_syntax::specs::Reader::decimal_step))]
fn decimal_step(bytes: &[u8]) -> Step<'_>
    ensures { step_shown result ≡ reader.decimal_step bytes.now }
{
    let rest = Class::Digit.past(bytes);
    numbered(value_of(10, before(bytes, rest)), rest)
}

#[tactic(auto, using(dart_syntax::proofs::Fronts::front_take), unfolding(dart_syntax::specs::Reader::hexadecimal_step))]
fn hexadecimal_step(bytes: &[u8]) -> Step<'_>
    ensures { step_shown result ≡ reader.hexadecimal_step bytes.now }
{
    let digits = behind(2, bytes);
    let rest = Class::Hex.past(digits);
    numbered(value_of(16, before(digits, rest)), rest)
}

#[tactic(auto, unfolding(dart_syntax::specs::Reader::number_step))]
fn number_step(bytes: &[u8]) -> Step<'_>
    ensures { step_shown result ≡ reader.number_step bytes.now }
{
    if begins_hex(bytes) {
        hexadecimal_step(bytes)
    } else {
        decimal_step(bytes)
    }
}

#[tactic(auto, unfolding(dart_syntax::specs::Reader::line_step))]
fn line_step(bytes: &[u8]) -> Step<'_>
    ensures { step_shown result ≡ reader.line_step bytes.now }
{
    Step::Gap(Class::Line.past(tail(bytes)))
}

fn closes(b: u8, c: u8) -> bool
    ensures { result ≡ gaps.closes b c }
{
    b == b'*' && c == b'/'
}

fn opens(b: u8, c: u8) -> bool
    ensures { result ≡ gaps.opens b c }
{
    b == b'/' && c == b'*'
}

// What follows the comment whose text this is.
#[tactic(auto, unfolding(dart_syntax::specs::Reader::inside))]
fn past_comment(bytes: &[u8]) -> Option<&[u8]>
    ensures { ShowsRest result (reader.inside 0 bytes.now) }
{
    let mut rest = bytes;
    let mut depth = 0usize;
    let count = bytes.len();
    'comment: while let Some((b, more)) = next(rest) {
        let (c, after) = next(more)?;
        let closing = closes(b, c);
        let opening = opens(b, c);
        if closing {
            if depth == 0 {
                return Some(after);
            }
            depth -= 1;
            rest = after;
        } else if opening {
            prove!(depth < count);
            depth += 1;
            rest = after;
        } else {
            rest = more;
        }
    }
    None
}

#[tactic(auto, unfolding(dart_syntax::specs::Reader::comment_step))]
fn comment_step(bytes: &[u8]) -> Step<'_>
    ensures { step_shown result ≡ reader.comment_step bytes.now }
{
    match past_comment(tail(bytes)) {
        Some(rest) => Step::Gap(rest),
        None => Step::Broken(Rule::S4, &[]),
    }
}

#[tactic(auto, unfolding(dart_syntax::specs::Reader::sign_step))]
fn sign_step(bytes: &[u8]) -> Step<'_>
    ensures { step_shown result ≡ reader.sign_step bytes.now }
{
    match sign_of(bytes) {
        Some(sign) => Step::Found(Form::Sign(sign), behind(sign.spelling().len(), bytes)),
        None => Step::Broken(Rule::S2, tail(bytes)),
    }
}

/// The gap or token that begins here.
#[tactic(auto, unfolding(dart_syntax::specs::Reader::step))]
pub fn next_step(alloc: Global, bytes: &[u8]) -> Result<Step<'_>, AllocError>
    ensures { IfOk result (λ s. step_shown s ≡ reader.step bytes.now) }
{
    let Some((first, rest)) = next(bytes) else {
        return Ok(Step::Broken(Rule::S2, &[]));
    };
    if is_blank(first) {
        return Ok(Step::Gap(rest));
    }
    if is_start(first) {
        return word_step(alloc, bytes);
    }
    if is_digit(first) {
        return Ok(number_step(bytes));
    }
    let is_line = first == b'/' && next_is(b'/', rest);
    if is_line {
        return Ok(line_step(rest));
    }
    let is_comment = first == b'/' && next_is(b'*', rest);
    if is_comment {
        return Ok(comment_step(rest));
    }
    Ok(sign_step(bytes))
}
