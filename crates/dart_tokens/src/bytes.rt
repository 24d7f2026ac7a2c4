//! Bytes and fronts of bytes.
ghost use Rattle.std.specs.Prelude.{◌≡◌, ◌≤◌, ◌-◌, ◌∷◌, [], List, ℕ, MatchOption, length, take, drop};
ghost use Rattle.std.specs.List.{list_all};
ghost use Rattle.dart_syntax.specs.Table as table;
ghost use Rattle.dart_syntax.specs.Table.{back};
ghost use Rattle.dart_syntax.specs.Gaps as gaps;
ghost use Rattle.dart_syntax.specs.Texts as texts;
ghost use Rattle.dart_syntax.specs.Faults.{rest_of};
ghost use Rattle.dart_syntax.specs.Reader as reader;
ghost use Rattle.dart_syntax.specs.Tokens.{taken, has_line_end};
ghost use Rattle.dart_tokens.specs.Classes.{is_of};

/// A class of bytes.
#[derive(Clone, Copy, Debug)]
pub enum Class {
    /// Decimal digits.
    Digit,
    /// Hexadecimal digits.
    Hex,
    /// What a name or word goes on with.
    Part,
    /// What a name behind a `$` goes on with.
    Inner,
    /// What stands on a line.
    Line,
    /// What stands for itself in a text.
    Own { double: bool, raw: bool },
}

impl Class {
    /// Whether the byte is of the class.
    pub fn has(self, b: u8) -> bool
        ensures { result ≡ is_of self b }
    {
        match self {
            Class::Digit => is_digit(b),
            Class::Hex => is_hex(b),
            Class::Part => is_part(b),
            Class::Inner => is_part(b) && b != b'$',
            Class::Line => !ends_line(b),
            Class::Own { double, raw } => is_own(double, raw, b),
        }
    }

    /// What follows the longest front of such bytes.
    #[tactic(auto, using(dart_syntax::proofs::Fronts::back_shorter))]
    pub fn past(self, bytes: &[u8]) -> &[u8]
        ensures rest { result.now ≡ back (is_of self) bytes.now }
        ensures shorter { length result.now ≤ length bytes.now }
    {
        let mut rest = bytes;
        'front: while let Some((b, more)) = next(rest) {
            if !self.has(b) {
                return rest;
            }
            rest = more;
        }
        rest
    }
}

/// The first byte and what follows it.
pub fn next(bytes: &[u8]) -> Option<(u8, &[u8])>
    ensures { MatchOption result (bytes.now ≡ []) (λ x. bytes.now ≡ x.0 ∷ x.1.now) }
{
    let (first, rest) = bytes.split_first()?;
    Some((*first, rest))
}

/// What follows the first byte.
pub fn tail(bytes: &[u8]) -> &[u8]
    ensures { result.now ≡ rest_of bytes.now }
{
    match next(bytes) {
        Some((_, rest)) => rest,
        None => bytes,
    }
}

/// Whether this byte comes first.
pub fn next_is(wanted: u8, bytes: &[u8]) -> bool
    ensures { result ≡ reader.next_is wanted bytes.now }
{
    match next(bytes) {
        Some((first, _)) => first == wanted,
        None => false,
    }
}

/// What stands before `rest`.
pub fn before<'a>(bytes: &'a [u8], rest: &[u8]) -> &'a [u8]
    ensures { result.now ≡ taken bytes.now rest.now }
{
    let count = bytes.len().saturating_sub(rest.len());
    &bytes[..count]
}

/// The bytes behind the first `count`.
pub fn behind(count: usize, bytes: &[u8]) -> &[u8]
    ensures { result.now ≡ drop count bytes.now }
{
    if count <= bytes.len() {
        &bytes[count..]
    } else {
        &[]
    }
}

/// Whether a line ends in these bytes.
pub fn has_line_end(bytes: &[u8]) -> bool
    ensures { result ≡ has_line_end bytes.now }
{
    let mut rest = bytes;
    'line: while let Some((b, more)) = next(rest) {
        if ends_line(b) {
            return true;
        }
        rest = more;
    }
    false
}

pub fn is_digit(b: u8) -> bool
    ensures { result ≡ table.is_digit b }
{
    b'0' <= b && b <= b'9'
}

pub fn is_start(b: u8) -> bool
    ensures { result ≡ table.is_start b }
{
    (b'a' <= b && b <= b'z') || (b'A' <= b && b <= b'Z') || b == b'_' || b == b'$'
}

pub fn is_part(b: u8) -> bool
    ensures { result ≡ table.is_part b }
{
    is_start(b) || is_digit(b)
}

pub fn is_hex(b: u8) -> bool
    ensures { result ≡ table.is_hex b }
{
    is_digit(b) || (b'a' <= b && b <= b'f') || (b'A' <= b && b <= b'F')
}

pub fn is_blank(b: u8) -> bool
    ensures { result ≡ table.is_blank b }
{
    b == b' ' || b == b'\t' || b == b'\r' || b == b'\n'
}

pub fn ends_line(b: u8) -> bool
    ensures { result ≡ gaps.ends_line b }
{
    b == b'\n' || b == b'\r'
}

pub fn quote_of(double: bool) -> u8
    ensures { result ≡ texts.quote_of double }
{
    if double { b'"' } else { b'\'' }
}

pub fn is_own(double: bool, raw: bool, b: u8) -> bool
    ensures { result ≡ texts.is_own double raw b }
{
    !ends_line(b) && b != quote_of(double) && (raw || (b != b'\\' && b != b'$'))
}
