//! What stands between a class's name and its members.
ghost use Rattle.std.specs.Prelude.{◌≡◌, [], Some};
ghost use Rattle.decl_parser.specs.Classes as spec;
ghost use Rattle.expr_parser.specs.Cursor.{Gives};

use crate::head::ClassHead;
use dart_grammar::begins::next_built_in;
use dart_grammar::kinds::BuiltIn;
use dart_grammar::marks::{behind, next_sign, next_word};
use dart_grammar::trees::Names;
use dart_syntax::{Sign, Token, Word};
use expr_parser::Fault;
use expr_parser::cursor::{name_at, sign_at, word_at};
use expr_parser::types::type_at;
use sqlite_items::Items;
use std::alloc::Global;

// Behind the bound of a type parameter, if it has one.
#[tactic(auto, unfolding(crate::specs::Classes::past_bound))]
fn past_bound(alloc: Global, ts: &[Token]) -> Result<&[Token], Fault>
    ensures { Gives (λ x. x.now) result (spec.past_bound ts.now) }
{
    if !next_word(Word::Extends, ts) {
        return Ok(ts);
    }
    let (_, rest) = type_at(alloc, behind(ts))?;
    Ok(rest)
}

// Type parameters from behind the `<`, in so many turns at most.
#[tactic(auto, using(expr_parser::proofs::Turns::one_turn, expr_parser::proofs::Turns::no_turn), unfolding(crate::specs::Classes::type_parameters_from))]
fn type_parameter_items(
    alloc: Global,
    turns: usize,
    ts: &[Token],
) -> Result<(Names, &[Token]), Fault>
    ensures { Gives (λ x. (x.0, x.1.now)) result (spec.type_parameters_from turns [] ts.now) }
{
    let mut found = Items::new(alloc);
    let mut rest = ts;
    for _turn in 0..turns {
        let (item, after) = name_at(rest)?;
        found.push(item)?;
        let after = past_bound(alloc, after)?;
        if !next_sign(Sign::Comma, after) {
            let (_, rest) = sign_at(Sign::Greater, after)?;
            return Ok((found, rest));
        }
        rest = behind(after);
    }
    Err(Fault::NotDerived)
}

/// Type parameters, if there are some.
#[tactic(auto, unfolding(crate::specs::Classes::type_parameters))]
fn type_parameters(alloc: Global, ts: &[Token]) -> Result<(Names, &[Token]), Fault>
    ensures { Gives (λ x. (x.0, x.1.now)) result (spec.type_parameters ts.now) }
{
    if !next_sign(Sign::Less, ts) {
        return Ok((Items::new(alloc), ts));
    }
    type_parameter_items(alloc, ts.len(), behind(ts))
}

/// Types with commas between.
#[tactic(auto, using(expr_parser::proofs::Turns::one_turn, expr_parser::proofs::Turns::no_turn), unfolding(crate::specs::Classes::supertypes, crate::specs::Classes::supertypes_from))]
pub fn supertypes(alloc: Global, ts: &[Token]) -> Result<(Items<Names>, &[Token]), Fault>
    ensures { Gives (λ x. (x.0, x.1.now)) result (spec.supertypes ts.now) }
{
    let mut found = Items::new(alloc);
    let mut rest = ts;
    for _turn in 0..ts.len() {
        let ((item, _), after) = type_at(alloc, rest)?;
        found.push(item)?;
        if !next_sign(Sign::Comma, after) {
            return Ok((found, after));
        }
        rest = behind(after);
    }
    Err(Fault::NotDerived)
}

// The superclass and the mixins, from behind `extends`.
#[tactic(auto, unfolding(crate::specs::Classes::extended))]
fn extended(alloc: Global, ts: &[Token]) -> Result<((Option<Names>, Items<Names>), &[Token]), Fault>
    ensures { Gives (λ x. ((x.0.0, x.0.1), x.1.now)) result (spec.extended ts.now) }
{
    let ((superclass, _), after) = type_at(alloc, ts)?;
    if !next_word(Word::With, after) {
        return Ok(((Some(superclass), Items::new(alloc)), after));
    }
    let (mixins, rest) = supertypes(alloc, behind(after))?;
    Ok(((Some(superclass), mixins), rest))
}

/// The superclass, if there is one, and the mixins.
#[tactic(auto, unfolding(crate::specs::Classes::may_extend))]
pub fn may_extend(
    alloc: Global,
    ts: &[Token],
) -> Result<((Option<Names>, Items<Names>), &[Token]), Fault>
    ensures { Gives (λ x. ((x.0.0, x.0.1), x.1.now)) result (spec.may_extend ts.now) }
{
    if !next_word(Word::Extends, ts) {
        return Ok(((None, Items::new(alloc)), ts));
    }
    extended(alloc, behind(ts))
}

/// The interfaces.
#[tactic(auto, unfolding(crate::specs::Classes::may_implement))]
pub fn may_implement(alloc: Global, ts: &[Token]) -> Result<(Items<Names>, &[Token]), Fault>
    ensures { Gives (λ x. (x.0, x.1.now)) result (spec.may_implement ts.now) }
{
    if !next_built_in(BuiltIn::Implements, ts) {
        return Ok((Items::new(alloc), ts));
    }
    supertypes(alloc, behind(ts))
}

// Whether `abstract` stands here, and what stands behind it.
fn may_be_abstract(ts: &[Token]) -> (bool, &[Token])
    ensures { Some (result.0, result.1.now) ≡ spec.may_be_abstract ts.now }
{
    if next_built_in(BuiltIn::Abstract, ts) {
        (true, behind(ts))
    } else {
        (false, ts)
    }
}

/// What stands before a class's supertypes.
#[tactic(auto, unfolding(crate::specs::Classes::class_head))]
pub fn class_head(alloc: Global, ts: &[Token]) -> Result<(ClassHead, &[Token]), Fault>
    ensures { Gives (λ x. (x.0, x.1.now)) result (spec.class_head ts.now) }
{
    let (is_abstract, after) = may_be_abstract(ts);
    let (_, after) = word_at(Word::Class, after)?;
    let (name, after) = name_at(after)?;
    let (type_parameters, rest) = type_parameters(alloc, after)?;
    let head = ClassHead {
        is_abstract,
        name,
        type_parameters,
    };
    Ok((head, rest))
}
