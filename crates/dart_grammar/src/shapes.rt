//! Choices that look ahead: what begins at a place is told by the shape of the tokens there.
ghost use Rattle.std.specs.Prelude.{◌≡◌};
ghost use Rattle.dart_grammar.specs.Marks as marks;
ghost use Rattle.dart_grammar.specs.Shapes as spec;
ghost use Rattle.dart_grammar.specs.Ends.{seen};

use crate::kinds::{ForKind, Kind};
use crate::marks::{behind, next_as, next_name, next_named, next_sign, next_word};
use crate::parameters::parameters_end;
pub use crate::types::begins_type;
use crate::types::{arguments_end, type_end};
use dart_syntax::{Sign, Token, Word};

const ON: [u16; 2] = [111, 110];

fn begins_body(ts: &[Token]) -> bool
    ensures { result ≡ spec.begins_body ts.now }
{
    next_sign(Sign::Arrow, ts) || next_sign(Sign::OpenBrace, ts)
}

/// Whether these are parameters, from behind the `(` that opens them, with a function's body behind them.
#[tactic(auto, unfolding(crate::specs::Shapes::opens_function))]
pub fn opens_function(ts: &[Token]) -> bool
    ensures { result ≡ spec.opens_function ts.now }
{
    match parameters_end(ts.len() + 3, ts) {
        Some(after) => begins_body(after),
        None => false,
    }
}

/// Whether a map literal begins here: `{`, or type arguments and `{`.
pub fn begins_map(ts: &[Token]) -> bool
    ensures { result ≡ spec.begins_map ts.now }
{
    match arguments_end(ts) {
        Some(after) => next_sign(Sign::OpenBrace, after),
        None => false,
    }
}

// At the name that is declared behind `var`, `final`, `const` or a type.
fn lead_end(ts: &[Token]) -> Option<&[Token]>
    ensures { seen result ≡ spec.lead_end ts.now }
{
    let after = behind(ts);
    if next_word(Word::Var, ts) {
        return Some(after);
    }
    if !next_word(Word::Final, ts) && !next_word(Word::Const, ts) {
        return type_end(ts);
    }
    if begins_type(after) {
        type_end(after)
    } else {
        Some(after)
    }
}

fn is_declaring(end: Option<&[Token]>) -> bool
    ensures { result ≡ spec.is_declaring (seen end.entry) }
{
    match end {
        Some(ts) => next_name(ts) && !(next_as(ts) && next_name(behind(ts))),
        None => false,
    }
}

fn is_call(end: Option<&[Token]>) -> bool
    ensures { result ≡ spec.is_call (seen end.entry) }
{
    match end {
        Some(ts) => next_sign(Sign::OpenParen, behind(ts)),
        None => false,
    }
}

fn begins_untyped(ts: &[Token]) -> bool
    ensures { result ≡ spec.begins_untyped ts.now }
{
    let after = behind(ts);
    next_name(ts) && (next_sign(Sign::OpenParen, after) && opens_function(behind(after)))
}

/// Whether `var`, `final` or `const` stands here.
pub fn begins_variables(ts: &[Token]) -> bool
    ensures { result ≡ spec.begins_variables ts.now }
{
    next_word(Word::Var, ts) || next_word(Word::Final, ts) || next_word(Word::Const, ts)
}

/// What a statement is that begins with no word or sign of its own.
#[tactic(auto, unfolding(crate::specs::Shapes::kind_of))]
pub fn kind_of(ts: &[Token]) -> Kind
    ensures { result ≡ spec.kind_of ts.now }
{
    if begins_variables(ts) {
        return Kind::Variables;
    }
    if next_word(Word::Void, ts) {
        return Kind::Typed;
    }
    let end = type_end(ts);
    if (next_name(ts) && next_sign(Sign::Less, behind(ts))) || is_declaring(end) {
        return if is_call(end) {
            Kind::Typed
        } else {
            Kind::Variables
        };
    }
    if begins_untyped(ts) {
        Kind::Untyped
    } else {
        Kind::Expression
    }
}

fn is_before_in(end: Option<&[Token]>) -> bool
    ensures { result ≡ spec.is_before_in (seen end.entry) }
{
    match end {
        Some(ts) => next_word(Word::In, behind(ts)),
        None => false,
    }
}

/// What stands behind the `(` of a `for`.
#[tactic(auto, unfolding(crate::specs::Shapes::for_kind_of))]
pub fn for_kind_of(ts: &[Token]) -> ForKind
    ensures { result ≡ spec.for_kind_of ts.now }
{
    if next_name(ts) && next_word(Word::In, behind(ts)) {
        return ForKind::In;
    }
    let end = lead_end(ts);
    if !begins_variables(ts) && !is_declaring(end) {
        ForKind::Expressions
    } else if is_before_in(end) {
        ForKind::DeclaredIn
    } else {
        ForKind::Declared
    }
}

fn is_before_clause(end: Option<&[Token]>) -> bool
    ensures { result ≡ spec.is_before_clause (seen end.entry) }
{
    match end {
        Some(ts) => next_sign(Sign::OpenBrace, ts) || next_word(Word::Catch, ts),
        None => false,
    }
}

/// Whether the next token is the name `on`.
pub fn next_on(ts: &[Token]) -> bool
    ensures { result ≡ marks.next (marks.is_named spec.on_word) ts.now }
{
    next_named(ON.as_slice(), ts)
}

/// Whether a clause of a `try` begins here: `catch`, or `on`, a type, and a block or `catch`.
#[tactic(auto, unfolding(crate::specs::Shapes::begins_clause))]
pub fn begins_clause(ts: &[Token]) -> bool
    ensures { result ≡ spec.begins_clause ts.now }
{
    next_word(Word::Catch, ts) || (next_on(ts) && is_before_clause(type_end(behind(ts))))
}
