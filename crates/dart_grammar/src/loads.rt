//! Loads: how deep a parser is at a token, at most.
ghost use Rattle.std.specs.Prelude.{◌≡◌, ◌≤◌, ◌+◌, ◌<◌, ◌^◌, IfOk, OnOk};
ghost use Rattle.dart_syntax.specs.declared.tokens.Form.TheVariants as f;
ghost use Rattle.dart_grammar.specs.Marks as marks;
ghost use Rattle.dart_grammar.specs.Loads as spec;

use crate::defaults::{closes, opens};
use crate::marks::{is_as, is_sign, is_word, next, operator_of};
use crate::runs::Runs;
use dart_syntax::{Form, Sign, Token, Word};
use std::alloc::{AllocError, Global};

/// The greatest load that a token may have.
pub const GREATEST_LOAD: usize = 200;

fn is_counted_sign(sign: Sign) -> bool
    ensures { result ≡ spec.is_counted_sign sign }
{
    !matches!(
        sign,
        Sign::OpenBrace
            | Sign::CloseBrace
            | Sign::OpenParen
            | Sign::CloseParen
            | Sign::OpenBracket
            | Sign::CloseBracket
            | Sign::Semicolon
            | Sign::Comma
            | Sign::Colon
            | Sign::At
    )
}

fn is_counted_word(word: Word) -> bool
    ensures { result ≡ spec.is_counted (f.Word word) }
{
    matches!(
        word,
        Word::Is | Word::Throw | Word::If | Word::Else | Word::For | Word::While | Word::Do
    )
}

fn is_counted(form: &Form) -> bool
    ensures { result ≡ spec.is_counted form.now }
{
    match form {
        Form::Sign(sign) => is_counted_sign(*sign),
        Form::Word(word) => is_counted_word(*word),
        Form::Name(_) => is_as(form),
        _ => false,
    }
}

fn is_two_sided(form: &Form) -> bool
    ensures { result ≡ spec.is_two_sided form.now }
{
    match form {
        Form::Sign(sign) => operator_of(*sign).is_some(),
        _ => false,
    }
}

fn goes_on(form: &Form) -> bool
    ensures { result ≡ spec.goes_on form.now }
{
    is_word(Word::Else, form)
        || is_sign(Sign::Dot, form)
        || is_sign(Sign::Question, form)
        || is_two_sided(form)
}

fn next_goes_on(ts: &[Token]) -> bool
    ensures { result ≡ marks.next spec.goes_on ts.now }
{
    match next(ts) {
        Some((first, _)) => goes_on(&first.form),
        None => false,
    }
}

// The runs behind a token, before these tokens.
fn pass(runs: &mut Runs, form: &Form, ts: &[Token]) -> Result<(), AllocError>
    requires { spec.load runs.old < 2 ^ 32 }
    ensures { OnOk result (runs.new ≡ spec.passed form.now ts.now runs.old) }
{
    if opens(form) {
        return runs.open();
    }
    if is_sign(Sign::CloseBrace, form) {
        runs.leave();
        if !next_goes_on(ts) {
            runs.begin_anew();
        }
    } else if closes(form) {
        runs.leave();
    } else if is_sign(Sign::Semicolon, form) || is_sign(Sign::Comma, form) {
        runs.begin_anew();
    } else if is_counted(form) {
        runs.count();
    }
    Ok(())
}

/// Where the first token begins whose load is above [`GREATEST_LOAD`]; none where no token's is. Memory is taken for at
/// most so many brackets.
#[tactic(auto, unfolding(crate::specs::Loads::overload))]
pub fn first_overload(alloc: Global, ts: &[Token]) -> Result<Option<u32>, AllocError>
    ensures { IfOk result (λ place. place ≡ spec.first_overload ts.now) }
{
    let mut runs = Runs::new(alloc);
    let mut rest = ts;
    'tokens: while let Some((first, more)) = next(rest) {
        if runs.load() > GREATEST_LOAD {
            return Ok(Some(first.from));
        }
        pass(&mut runs, &first.form, more)?;
        rest = more;
    }
    Ok(None)
}
