//! Where parameters end.
ghost use Rattle.std.specs.Prelude.{◌≡◌, length};
ghost use Rattle.dart_grammar.specs.Shapes as spec;
ghost use Rattle.dart_grammar.specs.Ends.{seen};

use crate::defaults::{closes, default_end, opens};
use crate::marks::{behind, next, next_name, next_sign, next_word};
use crate::types::{dotted_end, past, result_end};
use dart_syntax::{Sign, Token, Word};

// Behind the bracket that closes the one that stands here.
#[tactic(auto, unfolding(crate::specs::Shapes::brackets_end))]
fn brackets_end(ts: &[Token]) -> Option<&[Token]>
    ensures { seen result ≡ spec.brackets_end 0 ts.now }
{
    let count = ts.len();
    let mut rest = ts;
    let mut open = 0usize;
    'tokens: while let Some((first, more)) = next(rest) {
        rest = more;
        if opens(&first.form) {
            prove!(open < count);
            open += 1;
        } else if closes(&first.form) {
            if open == 1 {
                return Some(rest);
            }
            open = open.saturating_sub(1);
        }
    }
    None
}

fn names_end(ts: &[Token]) -> Option<&[Token]>
    ensures { seen result ≡ spec.names_end ts.now }
{
    let after = dotted_end(ts)?;
    if next_sign(Sign::Dot, after) && next_name(behind(after)) {
        Some(behind(behind(after)))
    } else {
        Some(after)
    }
}

fn bracketed_end(ts: &[Token]) -> Option<&[Token]>
    ensures { seen result ≡ spec.bracketed_end ts.now }
{
    if next_sign(Sign::OpenParen, ts) {
        brackets_end(ts)
    } else {
        Some(ts)
    }
}

/// Behind metadata, as often as it stands here.
#[tactic(auto, using(crate::proofs::Turns::one_turn, crate::proofs::Turns::no_turn), unfolding(crate::specs::Shapes::metadata_end))]
pub fn metadata_end(ts: &[Token]) -> Option<&[Token]>
    ensures { seen result ≡ spec.metadata_end (length ts.now) ts.now }
{
    let mut rest = ts;
    for _turn in 0..ts.len() {
        if !next_sign(Sign::At, rest) {
            return Some(rest);
        }
        rest = bracketed_end(names_end(behind(rest))?)?;
    }
    Some(rest)
}

fn modifier_end(ts: &[Token]) -> &[Token]
    ensures { result.now ≡ spec.modifier_end ts.now }
{
    if next_word(Word::Var, ts) || next_word(Word::Final, ts) {
        behind(ts)
    } else {
        ts
    }
}

fn this_end(ts: &[Token]) -> Option<&[Token]>
    ensures { seen result ≡ spec.this_end ts.now }
{
    if next_word(Word::This, ts) {
        past(Sign::Dot, behind(ts))
    } else {
        Some(ts)
    }
}

fn name_end(ts: &[Token]) -> Option<&[Token]>
    ensures { seen result ≡ spec.name_end ts.now }
{
    if next_name(ts) {
        Some(behind(ts))
    } else {
        None
    }
}

#[tactic(auto, unfolding(crate::specs::Shapes::parameter_name_end))]
fn parameter_name_end(ts: &[Token]) -> Option<&[Token]>
    ensures { seen result ≡ spec.parameter_name_end ts.now }
{
    let late = result_end(modifier_end(metadata_end(ts)?))?;
    name_end(this_end(late)?)
}

fn past_default(ts: &[Token]) -> Option<&[Token]>
    ensures { seen result ≡ spec.past_default ts.now }
{
    if next_sign(Sign::Assign, ts) {
        default_end(behind(ts))
    } else {
        Some(ts)
    }
}

/// Behind the bracket that closes parameters, from behind the one that opens them, in at most so many turns.
#[cycle(parameters)]
#[tactic(auto, unfolding(crate::specs::Shapes::parameters_end))]
pub fn parameters_end(turns: usize, ts: &[Token]) -> Option<&[Token]>
    ensures { seen result ≡ spec.parameters_end turns ts.now }
{
    if turns == 0 {
        None
    } else if next_sign(Sign::CloseParen, ts) {
        Some(behind(ts))
    } else {
        required_end(turns - 1, ts)
    }
}

#[cycle(parameters)]
#[tactic(auto, using(crate::proofs::Turns::one_turn, crate::proofs::Turns::no_turn), unfolding(crate::specs::Shapes::required_end))]
fn required_end(turns: usize, ts: &[Token]) -> Option<&[Token]>
    ensures { seen result ≡ spec.required_end turns ts.now }
{
    let mut rest = ts;
    for turn in 0..turns {
        let left = turns - turn - 1;
        if next_sign(Sign::OpenBracket, rest) {
            let after = optional_end(left, behind(rest))?;
            return past(Sign::CloseParen, after);
        }
        let after = nested_end(left, parameter_name_end(rest)?)?;
        if !next_sign(Sign::Comma, after) {
            return past(Sign::CloseParen, after);
        }
        rest = behind(after);
    }
    None
}

// Behind the parameters of a parameter that is a function, where it is one.
#[cycle(parameters)]
#[tactic(auto, unfolding(crate::specs::Shapes::nested_end))]
fn nested_end(turns: usize, ts: &[Token]) -> Option<&[Token]>
    ensures { seen result ≡ spec.nested_end turns ts.now }
{
    if turns == 0 {
        None
    } else if next_sign(Sign::OpenParen, ts) {
        parameters_end(turns - 1, behind(ts))
    } else {
        Some(ts)
    }
}

#[cycle(parameters)]
#[tactic(auto, using(crate::proofs::Turns::one_turn, crate::proofs::Turns::no_turn), unfolding(crate::specs::Shapes::optional_end))]
fn optional_end(turns: usize, ts: &[Token]) -> Option<&[Token]>
    ensures { seen result ≡ spec.optional_end turns ts.now }
{
    let mut rest = ts;
    for turn in 0..turns {
        let left = turns - turn - 1;
        let after = nested_end(left, parameter_name_end(rest)?)?;
        let late = past_default(after)?;
        if !next_sign(Sign::Comma, late) {
            return past(Sign::CloseBracket, late);
        }
        rest = behind(late);
    }
    None
}
