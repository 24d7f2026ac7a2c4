//! What a declaration is, told by the tokens at its beginning.
ghost use Rattle.std.specs.Prelude.{◌≡◌, length};
ghost use Rattle.dart_grammar.specs.Declarations as spec;
ghost use Rattle.dart_grammar.specs.Ends.{seen};
ghost use Rattle.dart_grammar.specs.Marks as marks;

use crate::kinds::{BuiltIn, DeclarationKind};
use crate::marks::{behind, next, next_name, next_named, next_sign, next_text_open, next_word};
use crate::parameters::metadata_end;
use crate::shapes::begins_variables;
use crate::types::{begins_type, result_end};
use dart_syntax::{Form, Sign, Token, Word};

// The spellings, as UTF-16 units.
const LIBRARY: [u16; 7] = [108, 105, 98, 114, 97, 114, 121];

const IMPORT: [u16; 6] = [105, 109, 112, 111, 114, 116];

const DEFERRED: [u16; 8] = [100, 101, 102, 101, 114, 114, 101, 100];

const AS: [u16; 2] = [97, 115];

const SHOW: [u16; 4] = [115, 104, 111, 119];

const HIDE: [u16; 4] = [104, 105, 100, 101];

const ABSTRACT: [u16; 8] = [97, 98, 115, 116, 114, 97, 99, 116];

const IMPLEMENTS: [u16; 10] = [105, 109, 112, 108, 101, 109, 101, 110, 116, 115];

const STATIC: [u16; 6] = [115, 116, 97, 116, 105, 99];

const GET: [u16; 3] = [103, 101, 116];

const SET: [u16; 3] = [115, 101, 116];

const OPERATOR: [u16; 8] = [111, 112, 101, 114, 97, 116, 111, 114];

const NATIVE: [u16; 6] = [110, 97, 116, 105, 118, 101];

/// Whether the next token is the built-in identifier.
pub fn next_built_in(word: BuiltIn, ts: &[Token]) -> bool
    ensures { result ≡ spec.next_named (spec.spelling word) ts.now }
{
    match word {
        BuiltIn::Library => next_named(LIBRARY.as_slice(), ts),
        BuiltIn::Import => next_named(IMPORT.as_slice(), ts),
        BuiltIn::Deferred => next_named(DEFERRED.as_slice(), ts),
        BuiltIn::As => next_named(AS.as_slice(), ts),
        BuiltIn::Show => next_named(SHOW.as_slice(), ts),
        BuiltIn::Hide => next_named(HIDE.as_slice(), ts),
        BuiltIn::Abstract => next_named(ABSTRACT.as_slice(), ts),
        BuiltIn::Implements => next_named(IMPLEMENTS.as_slice(), ts),
        BuiltIn::Static => next_named(STATIC.as_slice(), ts),
        BuiltIn::Get => next_named(GET.as_slice(), ts),
        BuiltIn::Set => next_named(SET.as_slice(), ts),
        BuiltIn::Operator => next_named(OPERATOR.as_slice(), ts),
        BuiltIn::Native => next_named(NATIVE.as_slice(), ts),
    }
}

// Behind a name and as many further ones, each behind a dot.
#[tactic(auto, using(crate::proofs::Turns::one_turn, crate::proofs::Turns::no_turn), unfolding(crate::specs::Declarations::path_end))]
fn path_end(turns: usize, ts: &[Token]) -> &[Token]
    ensures { result.now ≡ spec.path_end turns ts.now }
{
    let mut rest = ts;
    for _turn in 0..turns {
        if !next_sign(Sign::Dot, rest) || !next_name(behind(rest)) {
            return rest;
        }
        rest = behind(behind(rest));
    }
    rest
}

/// Whether the library's line begins here: `library`, names with dots between, and `;`.
pub fn begins_library(ts: &[Token]) -> bool
    ensures { result ≡ spec.begins_library ts.now }
{
    let name = behind(ts);
    next_built_in(BuiltIn::Library, ts)
        && next_name(name)
        && next_sign(Sign::Semicolon, path_end(ts.len(), behind(name)))
}

/// Whether an import begins here: metadata, `import` and a text.
pub fn begins_import(ts: &[Token]) -> bool
    ensures { result ≡ spec.begins_import ts.now }
{
    match metadata_end(ts) {
        Some(after) => next_built_in(BuiltIn::Import, after) && next_text_open(behind(after)),
        None => false,
    }
}

fn is_operator_sign(form: &Form) -> bool
    ensures { result ≡ spec.is_operator_sign form.now }
{
    match form {
        Form::Sign(sign) => matches!(
            sign,
            Sign::Plus
                | Sign::Minus
                | Sign::Times
                | Sign::Divide
                | Sign::Modulo
                | Sign::Less
                | Sign::Greater
                | Sign::LessEqual
                | Sign::GreaterEqual
                | Sign::OpenBracket
        ),
        _ => false,
    }
}

fn next_operator_sign(ts: &[Token]) -> bool
    ensures { result ≡ marks.next spec.is_operator_sign ts.now }
{
    match next(ts) {
        Some((first, _)) => is_operator_sign(&first.form),
        None => false,
    }
}

fn begins_getter(ts: &[Token]) -> bool
    ensures { result ≡ spec.begins_getter ts.now }
{
    next_built_in(BuiltIn::Get, ts) && next_name(behind(ts))
}

fn begins_setter(ts: &[Token]) -> bool
    ensures { result ≡ spec.begins_setter ts.now }
{
    next_built_in(BuiltIn::Set, ts) && next_name(behind(ts))
}

fn begins_operator(ts: &[Token]) -> bool
    ensures { result ≡ spec.begins_operator ts.now }
{
    next_built_in(BuiltIn::Operator, ts) && next_operator_sign(behind(ts))
}

/// What a declaration is, with these tokens where its name is due.
pub fn kind_at(ts: &[Token]) -> DeclarationKind
    ensures { result ≡ spec.kind_at ts.now }
{
    if begins_getter(ts) {
        DeclarationKind::Getter
    } else if begins_setter(ts) {
        DeclarationKind::Setter
    } else if begins_operator(ts) {
        DeclarationKind::Operator
    } else if next_name(ts) && next_sign(Sign::OpenParen, behind(ts)) {
        DeclarationKind::Function
    } else {
        DeclarationKind::Variables
    }
}

/// Whether no accessor, operator or function begins here, with these tokens where a name is due.
pub fn is_variables(kind: DeclarationKind) -> bool
    ensures { result ≡ spec.is_variables kind }
{
    matches!(kind, DeclarationKind::Variables)
}

fn kind_behind(end: Option<&[Token]>) -> DeclarationKind
    ensures { result ≡ spec.kind_behind (seen end.entry) }
{
    match end {
        Some(ts) => kind_at(ts),
        None => DeclarationKind::Variables,
    }
}

/// What a declaration is that begins no class and no constructor, behind its metadata and `static`.
#[tactic(auto, unfolding(crate::specs::Declarations::kind_of))]
pub fn declaration_kind(ts: &[Token]) -> DeclarationKind
    ensures { result ≡ spec.kind_of ts.now }
{
    if begins_variables(ts) {
        return DeclarationKind::Variables;
    }
    let kind = kind_at(ts);
    if is_variables(kind) {
        kind_behind(result_end(ts))
    } else {
        kind
    }
}

/// Whether a constructor of the class of this name begins here.
pub fn begins_constructor(name: &[u16], ts: &[Token]) -> bool
    ensures { result ≡ spec.begins_constructor name.now ts.now }
{
    next_named(name, ts) && next_sign(Sign::OpenParen, path_end(1, behind(ts)))
}

fn makes_static(name: &[u16], ts: &[Token]) -> bool
    ensures { result ≡ spec.makes_static name.now ts.now }
{
    begins_variables(ts)
        || next_word(Word::Void, ts)
        || begins_getter(ts)
        || begins_setter(ts)
        || (begins_type(ts) && !begins_operator(ts))
        || (next_name(ts) && next_sign(Sign::OpenParen, behind(ts)) && !next_named(name, ts))
}

/// Whether `static` begins a static member of the class of this name here; else it is a name.
#[tactic(auto, unfolding(crate::specs::Declarations::begins_static))]
pub fn begins_static(name: &[u16], ts: &[Token]) -> bool
    ensures { result ≡ spec.begins_static name.now ts.now }
{
    next_built_in(BuiltIn::Static, ts) && makes_static(name, behind(ts))
}

/// Whether a class begins here.
pub fn begins_class(ts: &[Token]) -> bool
    ensures { result ≡ spec.begins_class ts.now }
{
    next_word(Word::Class, ts)
        || (next_built_in(BuiltIn::Abstract, ts) && next_word(Word::Class, behind(ts)))
}
