//! Types, and what stands before a name that is declared.
ghost use Rattle.std.specs.Prelude.{◌≡◌, length, false};
ghost use Rattle.expr_parser.specs.Types as spec;
ghost use Rattle.expr_parser.specs.Cursor.{Gives};

use crate::cursor::{name_at, sign_at};
use crate::fault::Fault;
use dart_grammar::marks::{behind, next_sign, next_word};
use dart_grammar::shapes::begins_type;
use dart_grammar::trees::Names;
use dart_syntax::{Sign, Token, Word};
use sqlite_items::Items;
use std::alloc::Global;

/// A name, or two with a dot between, and where the last one ends.
#[tactic(auto, unfolding(crate::specs::Types::dotted))]
pub fn dotted(alloc: Global, ts: &[Token]) -> Result<((Names, u32), &[Token]), Fault>
    ensures { Gives (λ x. ((x.0.0, x.0.1), x.1.now)) result (spec.dotted ts.now) }
{
    let (first, after) = name_at(ts)?;
    let end = first.span.to;
    let mut names = Items::new(alloc);
    names.push(first)?;
    if !next_sign(Sign::Dot, after) {
        return Ok(((names, end), after));
    }
    let (second, rest) = name_at(behind(after))?;
    let end = second.span.to;
    names.push(second)?;
    Ok(((names, end), rest))
}

// Behind the `<` that begins type arguments: where they end.
#[tactic(auto, using(crate::proofs::Turns::one_turn, crate::proofs::Turns::no_turn), unfolding(crate::specs::Types::angles_from))]
fn angles(alloc: Global, ts: &[Token]) -> Result<(u32, &[Token]), Fault>
    ensures { Gives (λ x. (x.0, x.1.now)) result (spec.angles_from (length ts.now) 0 false ts.now) }
{
    let mut rest = ts;
    // The open `<` besides the first, and whether a type ends here.
    let mut more = 0usize;
    let mut is_behind = false;
    for _turn in 0..ts.len() {
        if !is_behind {
            let (_, after) = dotted(alloc, rest)?;
            if next_sign(Sign::Less, after) {
                more += 1;
                rest = behind(after);
            } else {
                is_behind = true;
                rest = after;
            }
        } else if next_sign(Sign::Comma, rest) {
            is_behind = false;
            rest = behind(rest);
        } else {
            let (span, after) = sign_at(Sign::Greater, rest)?;
            if more == 0 {
                return Ok((span.to, after));
            }
            more -= 1;
            rest = after;
        }
    }
    Err(Fault::NotDerived)
}

/// Type arguments, and where they end.
#[tactic(auto, unfolding(crate::specs::Types::type_arguments))]
pub fn type_arguments(alloc: Global, ts: &[Token]) -> Result<(u32, &[Token]), Fault>
    ensures { Gives (λ x. (x.0, x.1.now)) result (spec.type_arguments ts.now) }
{
    let (_, after) = sign_at(Sign::Less, ts)?;
    angles(alloc, after)
}

/// A type, and where it ends.
#[tactic(auto, unfolding(crate::specs::Types::type_at))]
pub fn type_at(alloc: Global, ts: &[Token]) -> Result<((Names, u32), &[Token]), Fault>
    ensures { Gives (λ x. ((x.0.0, x.0.1), x.1.now)) result (spec.type_at ts.now) }
{
    let ((names, end), after) = dotted(alloc, ts)?;
    if !next_sign(Sign::Less, after) {
        return Ok(((names, end), after));
    }
    let (end, rest) = type_arguments(alloc, after)?;
    Ok(((names, end), rest))
}

/// Behind type arguments, where there are some.
#[tactic(auto, unfolding(crate::specs::Types::past_type_arguments))]
pub fn past_type_arguments(alloc: Global, ts: &[Token]) -> Result<&[Token], Fault>
    ensures { Gives (λ x. x.now) result (spec.past_type_arguments ts.now) }
{
    if !next_sign(Sign::Less, ts) {
        return Ok(ts);
    }
    let (_, rest) = type_arguments(alloc, ts)?;
    Ok(rest)
}

/// Behind a type or `void`, where one stands before a name.
#[tactic(auto, unfolding(crate::specs::Types::past_result))]
pub fn past_result(alloc: Global, ts: &[Token]) -> Result<&[Token], Fault>
    ensures { Gives (λ x. x.now) result (spec.past_result ts.now) }
{
    if next_word(Word::Void, ts) {
        return Ok(behind(ts));
    }
    if !begins_type(ts) {
        return Ok(ts);
    }
    let (_, rest) = type_at(alloc, ts)?;
    Ok(rest)
}

#[tactic(auto, unfolding(crate::specs::Types::past_annotation))]
fn past_annotation(alloc: Global, ts: &[Token]) -> Result<&[Token], Fault>
    ensures { Gives (λ x. x.now) result (spec.past_annotation ts.now) }
{
    if next_word(Word::Void, ts) {
        return Err(Fault::NotDerived);
    }
    past_result(alloc, ts)
}

/// Behind what declares variables, and whether they are final.
#[tactic(auto, unfolding(crate::specs::Types::lead))]
pub fn lead(alloc: Global, ts: &[Token]) -> Result<(bool, &[Token]), Fault>
    ensures { Gives (λ x. (x.0, x.1.now)) result (spec.lead ts.now) }
{
    if next_word(Word::Var, ts) {
        return Ok((false, behind(ts)));
    }
    if next_word(Word::Final, ts) || next_word(Word::Const, ts) {
        let rest = past_annotation(alloc, behind(ts))?;
        return Ok((true, rest));
    }
    let (_, rest) = type_at(alloc, ts)?;
    Ok((false, rest))
}

/// The names behind `new`.
#[tactic(auto, unfolding(crate::specs::Types::new_names))]
pub fn new_names(alloc: Global, ts: &[Token]) -> Result<(Names, &[Token]), Fault>
    ensures { Gives (λ x. (x.0, x.1.now)) result (spec.new_names ts.now) }
{
    let ((mut names, _), after) = type_at(alloc, ts)?;
    if !next_sign(Sign::Dot, after) {
        return Ok((names, after));
    }
    let (constructor, rest) = name_at(behind(after))?;
    names.push(constructor)?;
    Ok((names, rest))
}
