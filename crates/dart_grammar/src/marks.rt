//! The next token, and what it means beside an expression.
ghost use Rattle.std.specs.Prelude.{◌≡◌, [], ◌∷◌, MatchOption};
ghost use Rattle.dart_grammar.specs.Marks as spec;

use crate::trees::{Assignment, Operator, PrefixOperator, Step};
use dart_syntax::{Form, Sign, Token, Word};

const AS: [u16; 2] = [97, 115];

/// The first token and the others.
pub fn next(ts: &[Token]) -> Option<(&Token, &[Token])>
    ensures { MatchOption result (ts.now ≡ []) (λ x. ts.now ≡ x.0.now ∷ x.1.now) }
{
    ts.split_first()
}

/// The tokens behind the first one.
pub fn behind(ts: &[Token]) -> &[Token]
    ensures { result.now ≡ spec.behind ts.now }
{
    match next(ts) {
        Some((_, rest)) => rest,
        None => ts,
    }
}

#[tactic(auto, unfolding(crate::specs::Marks::same_word))]
fn same_word(a: Word, b: Word) -> bool
    ensures { result ≡ spec.same_word a b }
{
    a == b
}

#[tactic(auto, unfolding(crate::specs::Marks::same_sign))]
fn same_sign(a: Sign, b: Sign) -> bool
    ensures { result ≡ spec.same_sign a b }
{
    a == b
}

/// Whether this is the reserved word.
pub fn is_word(word: Word, form: &Form) -> bool
    ensures { result ≡ spec.is_word word form.now }
{
    match form {
        Form::Word(other) => same_word(*other, word),
        _ => false,
    }
}

/// Whether this is the sign.
pub fn is_sign(sign: Sign, form: &Form) -> bool
    ensures { result ≡ spec.is_sign sign form.now }
{
    match form {
        Form::Sign(other) => same_sign(*other, sign),
        _ => false,
    }
}

/// Whether this is a name.
pub fn is_name(form: &Form) -> bool
    ensures { result ≡ spec.is_name form.now }
{
    matches!(form, Form::Name(_))
}

/// Whether this is the name of these units.
pub fn is_named(units: &[u16], form: &Form) -> bool
    ensures { result ≡ spec.is_named units.now form.now }
{
    match form {
        Form::Name(name) => units == name.as_slice(),
        _ => false,
    }
}

/// Whether this is the name `as`.
pub fn is_as(form: &Form) -> bool
    ensures { result ≡ spec.is_named spec.as_word form.now }
{
    is_named(AS.as_slice(), form)
}

/// Whether this begins a text.
pub fn is_text_open(form: &Form) -> bool
    ensures { result ≡ spec.is_text_open form.now }
{
    matches!(form, Form::TextOpen)
}

/// Whether the next token is the reserved word.
pub fn next_word(word: Word, ts: &[Token]) -> bool
    ensures { result ≡ spec.next_word word ts.now }
{
    match next(ts) {
        Some((first, _)) => is_word(word, &first.form),
        None => false,
    }
}

/// Whether the next token is the sign.
pub fn next_sign(sign: Sign, ts: &[Token]) -> bool
    ensures { result ≡ spec.next_sign sign ts.now }
{
    match next(ts) {
        Some((first, _)) => is_sign(sign, &first.form),
        None => false,
    }
}

/// Whether the next token is a name.
pub fn next_name(ts: &[Token]) -> bool
    ensures { result ≡ spec.next_name ts.now }
{
    match next(ts) {
        Some((first, _)) => is_name(&first.form),
        None => false,
    }
}

/// Whether the next token is the name of these units.
pub fn next_named(units: &[u16], ts: &[Token]) -> bool
    ensures { result ≡ spec.next (spec.is_named units.now) ts.now }
{
    match next(ts) {
        Some((first, _)) => is_named(units, &first.form),
        None => false,
    }
}

/// Whether the next token is the name `as`.
pub fn next_as(ts: &[Token]) -> bool
    ensures { result ≡ spec.next (spec.is_named spec.as_word) ts.now }
{
    next_named(AS.as_slice(), ts)
}

/// Whether the next token begins a text.
pub fn next_text_open(ts: &[Token]) -> bool
    ensures { result ≡ spec.next spec.is_text_open ts.now }
{
    match next(ts) {
        Some((first, _)) => is_text_open(&first.form),
        None => false,
    }
}

/// The operator between two operands that the sign spells.
pub fn operator_of(sign: Sign) -> Option<Operator>
    ensures { result ≡ spec.operator_of sign }
{
    match sign {
        Sign::Or => Some(Operator::Or),
        Sign::And => Some(Operator::And),
        Sign::Equal => Some(Operator::Equal),
        Sign::NotEqual => Some(Operator::NotEqual),
        Sign::Less => Some(Operator::Less),
        Sign::Greater => Some(Operator::Greater),
        Sign::LessEqual => Some(Operator::LessEqual),
        Sign::GreaterEqual => Some(Operator::GreaterEqual),
        Sign::Plus => Some(Operator::Plus),
        Sign::Minus => Some(Operator::Minus),
        Sign::Times => Some(Operator::Times),
        Sign::Modulo => Some(Operator::Modulo),
        Sign::Divide => Some(Operator::Divide),
        _ => None,
    }
}

/// The operator before an operand that the sign spells.
pub fn prefix_of(sign: Sign) -> Option<PrefixOperator>
    ensures { result ≡ spec.prefix_of sign }
{
    match sign {
        Sign::Minus => Some(PrefixOperator::Negate),
        Sign::Not => Some(PrefixOperator::Not),
        _ => None,
    }
}

/// The step, up or down, that the sign spells.
pub fn step_of(sign: Sign) -> Option<Step>
    ensures { result ≡ spec.step_of sign }
{
    match sign {
        Sign::Increment => Some(Step::Increment),
        Sign::Decrement => Some(Step::Decrement),
        _ => None,
    }
}

/// The assignment that the sign spells.
pub fn assignment_of(sign: Sign) -> Option<Assignment>
    ensures { result ≡ spec.assignment_of sign }
{
    match sign {
        Sign::Assign => Some(Assignment::Set),
        Sign::PlusAssign => Some(Assignment::Plus),
        Sign::MinusAssign => Some(Assignment::Minus),
        Sign::TimesAssign => Some(Assignment::Times),
        Sign::DivideAssign => Some(Assignment::Divide),
        Sign::ModuloAssign => Some(Assignment::Modulo),
        _ => None,
    }
}

/// Whether a class can declare the operator.
pub fn is_declared(operator: Operator) -> bool
    ensures { result ≡ spec.is_declared operator }
{
    !matches!(
        operator,
        Operator::Or | Operator::And | Operator::Equal | Operator::NotEqual
    )
}

/// How loosely the sign joins what stands before it, from 1 to 10.
pub fn sign_looseness(sign: Sign) -> u8
    ensures { result ≡ spec.sign_looseness sign }
{
    match sign {
        Sign::Dot | Sign::OpenBracket | Sign::OpenParen | Sign::Increment | Sign::Decrement => 1,
        Sign::Times | Sign::Modulo | Sign::Divide => 2,
        Sign::Plus | Sign::Minus => 3,
        Sign::Less | Sign::Greater | Sign::LessEqual | Sign::GreaterEqual => 4,
        Sign::Equal | Sign::NotEqual => 5,
        Sign::And => 6,
        Sign::Or => 7,
        Sign::Question => 8,
        Sign::Assign
        | Sign::PlusAssign
        | Sign::MinusAssign
        | Sign::TimesAssign
        | Sign::DivideAssign
        | Sign::ModuloAssign => 9,
        _ => 10,
    }
}

fn form_looseness(form: &Form) -> u8
    ensures { result ≡ spec.form_looseness form.now }
{
    match form {
        Form::Sign(sign) => sign_looseness(*sign),
        Form::Word(Word::Is) => 4,
        Form::Name(_) if is_as(form) => 4,
        _ => 10,
    }
}

/// How loosely the next token joins what stands before it: 1 a selector, `++` and `--`, 2 to 7 the levels of operators,
/// 8 `?`, 9 an assignment, 10 a token that does not join, or no token.
pub fn looseness(ts: &[Token]) -> u8
    ensures { result ≡ spec.looseness ts.now }
{
    match next(ts) {
        Some((first, _)) => form_looseness(&first.form),
        None => 10,
    }
}

/// Whether the next token joins what stands before it.
pub fn joins(ts: &[Token]) -> bool
    ensures { result ≡ spec.joins ts.now }
{
    looseness(ts) != 10
}
