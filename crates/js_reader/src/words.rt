//! The member words, the operators, and heads of one word.

ghost use Rattle.std.specs.Prelude.{◌≡◌};
ghost use Rattle.js_reader.specs.Taking as spec;

use js_tree::{JsMember, JsOperator};

/// The member that this word names.
pub fn member_of(word: &[u8]) -> Option<JsMember>
    ensures { result ≡ spec.member_of word.now }
{
    if word == b"length".as_slice() {
        Some(JsMember::Length)
    } else if word == b"size".as_slice() {
        Some(JsMember::Size)
    } else if word == b"push".as_slice() {
        Some(JsMember::Push)
    } else if word == b"pop".as_slice() {
        Some(JsMember::Pop)
    } else if word == b"charCodeAt".as_slice() {
        Some(JsMember::CharCodeAt)
    } else if word == b"substring".as_slice() {
        Some(JsMember::Substring)
    } else if word == b"get".as_slice() {
        Some(JsMember::Get)
    } else if word == b"set".as_slice() {
        Some(JsMember::Set)
    } else if word == b"has".as_slice() {
        Some(JsMember::Has)
    } else if word == b"delete".as_slice() {
        Some(JsMember::Delete)
    } else if word == b"keys".as_slice() {
        Some(JsMember::Keys)
    } else if word == b"print".as_slice() {
        Some(JsMember::Print)
    } else if word == b"load".as_slice() {
        Some(JsMember::Load)
    } else {
        None
    }
}

/// The operator that this sign is.
pub fn operator_of(sign: &[u8]) -> Option<JsOperator>
    ensures { result ≡ spec.operator_of sign.now }
{
    if sign == b"+".as_slice() {
        Some(JsOperator::Plus)
    } else if sign == b"-".as_slice() {
        Some(JsOperator::Minus)
    } else if sign == b"*".as_slice() {
        Some(JsOperator::Times)
    } else if sign == b"/".as_slice() {
        Some(JsOperator::Divide)
    } else if sign == b"%".as_slice() {
        Some(JsOperator::Remainder)
    } else if sign == b"===".as_slice() {
        Some(JsOperator::Equal)
    } else if sign == b"<".as_slice() {
        Some(JsOperator::Less)
    } else if sign == b">".as_slice() {
        Some(JsOperator::Greater)
    } else if sign == b"<=".as_slice() {
        Some(JsOperator::LessEqual)
    } else if sign == b">=".as_slice() {
        Some(JsOperator::GreaterEqual)
    } else {
        None
    }
}
