//! Fronts of bytes.

ghost use Rattle.std.specs.Prelude.{◌≡◌, ◌≤◌, ◌-◌, ◌∷◌, [], MatchOption, length, take, drop, true, false};
ghost use Rattle.js_tree.specs.Tokens as tokens;
ghost use Rattle.js_reader.specs.Scanning as spec;
ghost use Rattle.js_reader.specs.Classes.{is_of};

/// A class of bytes.
#[derive(Clone, Copy, Debug)]
pub enum Class {
    /// A blank, a tab, CR or LF.
    Blank,
    /// A letter, a digit, `_` or `$`.
    Part,
}

pub fn is_digit(b: u8) -> bool
    ensures { result ≡ tokens.is_digit b }
{
    b'0' <= b && b <= b'9'
}

fn is_part(b: u8) -> bool
    ensures { result ≡ tokens.is_part b }
{
    (b'a' <= b && b <= b'z') || (b'A' <= b && b <= b'Z') || is_digit(b) || b == b'_' || b == b'$'
}

fn ends_line(b: u8) -> bool
    ensures { result ≡ tokens.ends_line b }
{
    b == b'\r' || b == b'\n'
}

fn is_blank(b: u8) -> bool
    ensures { result ≡ tokens.is_blank b }
{
    b == b' ' || b == b'\t' || ends_line(b)
}

impl Class {
    fn has(self, b: u8) -> bool
        ensures { result ≡ is_of self b }
    {
        match self {
            Class::Blank => is_blank(b),
            Class::Part => is_part(b),
        }
    }

    /// What follows the longest front of such bytes.
    #[tactic(auto, using(crate::proofs::Fronts::back_shorter))]
    pub fn past(self, bytes: &[u8]) -> &[u8]
        ensures rest { result.now ≡ spec.back (is_of self) bytes.now }
        ensures shorter { length result.now ≤ length bytes.now }
    {
        let mut rest = bytes;
        'front: while let Some((b, more)) = next(rest) {
            if !self.has(b) {
                return rest;
            }
            rest = more;
        }
        rest
    }
}

/// The first byte and what follows it.
pub fn next(bytes: &[u8]) -> Option<(u8, &[u8])>
    ensures { MatchOption result (bytes.now ≡ []) (λ x. bytes.now ≡ x.0 ∷ x.1.now) }
{
    let (first, rest) = bytes.split_first()?;
    Some((*first, rest))
}

/// The longest front of letters, digits, `_` and `$`, and what follows it.
#[tactic(auto, using(crate::proofs::Fronts::front_taken))]
pub fn run(bytes: &[u8]) -> (&[u8], &[u8])
    ensures front { result.0.now ≡ spec.front tokens.is_part bytes.now }
    ensures back { result.1.now ≡ spec.back tokens.is_part bytes.now }
{
    let rest = Class::Part.past(bytes);
    (&bytes[..bytes.len() - rest.len()], rest)
}

/// Whether a line ends in the blanks at the front.
pub fn line_ends(bytes: &[u8]) -> bool
    ensures { result ≡ spec.line_ends false bytes.now }
{
    let mut rest = bytes;
    'gap: while let Some((b, more)) = next(rest) {
        if !is_blank(b) {
            return false;
        }
        if ends_line(b) {
            return true;
        }
        rest = more;
    }
    false
}

/// Whether this byte comes first.
pub fn begins(wanted: u8, bytes: &[u8]) -> bool
    ensures { result ≡ spec.begins wanted bytes.now }
{
    match next(bytes) {
        Some((first, _)) => first == wanted,
        None => false,
    }
}

fn begins_twice(wanted: u8, bytes: &[u8]) -> bool
    ensures { result ≡ spec.begins_twice wanted bytes.now }
{
    match next(bytes) {
        Some((first, rest)) => first == wanted && begins(wanted, rest),
        None => false,
    }
}

fn is_single(b: u8) -> bool
    ensures { result ≡ spec.is_single b }
{
    b == b'('
        || b == b')'
        || b == b'*'
        || b == b'+'
        || b == b','
        || b == b'-'
        || b == b'.'
        || b == b'/'
        || b == b'%'
        || b == b':'
        || b == b';'
        || b == b'['
        || b == b']'
        || b == b'{'
        || b == b'}'
}

fn length_from(b: u8, rest: &[u8]) -> usize
    ensures { result ≡ spec.length_from b rest.now }
{
    if b == b'=' {
        if begins_twice(b'=', rest) { 3 } else { 1 }
    } else if b == b'<' || b == b'>' {
        if begins(b'=', rest) { 2 } else { 1 }
    } else if is_single(b) {
        1
    } else {
        0
    }
}

/// How long the sign is that the bytes begin with; 0 where none does.
#[tactic(auto, unfolding(crate::specs::Scanning::sign_length))]
fn sign_length(bytes: &[u8]) -> usize
    ensures { result ≡ spec.sign_length bytes.now }
{
    match next(bytes) {
        Some((b, rest)) => {
            if is_part(b) || b == b'"' {
                0
            } else {
                length_from(b, rest)
            }
        }
        None => 0,
    }
}

/// The sign that the bytes begin with, and what follows it.
#[tactic(auto, using(crate::proofs::Fronts::sign_fits))]
pub fn sign(bytes: &[u8]) -> (&[u8], &[u8])
    ensures sign { result.0.now ≡ take (spec.sign_length bytes.now) bytes.now }
    ensures rest { result.1.now ≡ drop (spec.sign_length bytes.now) bytes.now }
{
    let count = sign_length(bytes);
    (&bytes[..count], &bytes[count..])
}
