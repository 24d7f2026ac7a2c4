//! Whole files.
ghost use Rattle.std.specs.Prelude.{◌≡◌, ◌<◌, ◌^◌, ◌||◌, ◌++◌, Ok, Bool, IfOk, OnOk, IfErr, MatchOption, MatchResult, IsUtf8, length};
ghost use Rattle.std.specs.Str.{IsValidUpTo};
ghost use Rattle.dart_syntax.specs.Table.{Bytes};
ghost use Rattle.dart_syntax.specs.Tokens.{Stack, IsTokens, Ascend};
ghost use Rattle.dart_syntax.specs.Reader as reader;
ghost use Rattle.dart_tokens.specs.Answers.{first_of, Fails, Refuses, after_item, GoesOn, looks_on};
ghost use Rattle.dart_syntax.specs.Reader.{Scanned};

use crate::items::{Read, next_item, place};
use crate::levels::Levels;
use dart_syntax::{Rule, Token, TokenList, Tokens};
use std::alloc::{AllocError, Global};
use thiserror::Error;

/// Why a file has no tokens.
#[derive(Clone, Copy, Debug, PartialEq, Eq, Error)]
pub enum ScanError {
    /// The first rule on tokens that the file breaks, and the offset in bytes at which it does.
    #[error("rule {rule:?} is broken at byte {at}")]
    Fault { at: u32, rule: Rule },
    /// Memory was wanting.
    #[error("out of memory")]
    Memory,
}

impl From<AllocError> for ScanError {
    ghost use Rattle.std.specs.Prelude.{◌≡◌};
    ghost use Rattle.dart_tokens.specs.declared.scanner.ScanError.TheVariants.{Memory};

    ghost from_gives = { λ _ e. e ≡ Memory };

    fn from(_: AllocError) -> ScanError {
        ScanError::Memory
    }
}

// Whether looking for a text's end stops at this rule.
fn is_late(rule: Rule) -> bool
    ensures { result ≡ reader.is_late rule }
{
    matches!(rule, Rule::S3 | Rule::S4)
}

// What follows the next item, what breaks a rule in it being passed over; none where it shows that a text isn't closed
// on its line.
fn look_past<'a>(
    alloc: Global,
    count: u32,
    held: &mut Levels,
    bytes: &'a [u8],
) -> Result<Option<&'a [u8]>, AllocError>
    ensures { IfOk result (λ rest. (more : Stack → Bytes → Bool) → reader.skimmed more held.old (reader.read count held.old bytes.now) ≡ looks_on rest held.new more) }
{
    match next_item(alloc, count, held, bytes)? {
        Read::Took(_, rest) => Ok(Some(rest)),
        Read::Bad(rule, _, after) => {
            if is_late(rule) {
                Ok(None)
            } else {
                Ok(Some(after))
            }
        }
    }
}

// Whether all texts that are open are closed on this line.
fn skim(alloc: Global, count: u32, held: &mut Levels, bytes: &[u8]) -> Result<bool, AllocError>
    ensures { IfOk result (λ closed. closed ≡ reader.skim count (length bytes.now) held.old bytes.now) }
{
    let mut rest = bytes;
    for _turn in 0..bytes.len() {
        if !held.in_text() {
            return Ok(true);
        }
        if rest.is_empty() {
            return Ok(false);
        }
        match look_past(alloc, count, held, rest)? {
            Some(after) => rest = after,
            None => return Ok(false),
        }
    }
    Ok(!held.in_text())
}

// Whether the texts that an item opened outside of all texts are closed on this line.
fn is_closed(
    alloc: Global,
    count: u32,
    inside: bool,
    held: &Levels,
    bytes: &[u8],
) -> Result<bool, AllocError>
    ensures { IfOk result (λ closed. closed ≡ (inside || reader.skim count (length bytes.now) held.now bytes.now)) }
{
    if inside {
        return Ok(true);
    }
    let mut ahead = held.copy()?;
    skim(alloc, count, &mut ahead, bytes)
}

fn append(found: &mut Vec<Token>, tokens: Vec<Token>) -> Result<(), AllocError>
    ensures { OnOk result (found.new.items ≡ found.old.items ++ tokens.items) }
{
    let mut tokens = tokens;
    found.append(&mut tokens)
}

// Adds the tokens of an item that began within a text or outside of all.
fn take<'a>(
    alloc: Global,
    count: u32,
    inside: bool,
    held: &Levels,
    found: &mut Vec<Token>,
    tokens: Vec<Token>,
    rest: &'a [u8],
) -> Result<&'a [u8], ScanError>
    ensures { GoesOn result found.old.items found.new.items held.now (λ more. after_item count inside more tokens.items held.now rest.now) }
{
    if !is_closed(alloc, count, inside, held, rest)? {
        return Err(ScanError::Fault {
            at: place(count, rest).saturating_sub(1),
            rule: Rule::S3,
        });
    }
    append(found, tokens)?;
    Ok(rest)
}

// Adds the tokens of the next item.
fn take_next<'a>(
    alloc: Global,
    count: u32,
    held: &mut Levels,
    found: &mut Vec<Token>,
    bytes: &'a [u8],
) -> Result<&'a [u8], ScanError>
    ensures { GoesOn result found.old.items found.new.items held.new (λ more. reader.went count held.old more (reader.read count held.old bytes.now)) }
{
    let inside = held.in_text();
    match next_item(alloc, count, held, bytes)? {
        Read::Took(tokens, rest) => take(alloc, count, inside, held, found, tokens, rest),
        Read::Bad(rule, left, _) => Err(ScanError::Fault {
            at: place(count, left),
            rule,
        }),
    }
}

// The tokens of a file of `count` bytes, or the first of the rules S2 to S7 that it breaks.
fn scanned(alloc: Global, count: u32, bytes: &[u8]) -> Result<Vec<Token>, ScanError>
    requires { count ≡ length bytes.now }
    ensures { MatchResult result (λ ts. reader.scan bytes.now ≡ Ok ts.items) (λ e. Fails e (reader.scan bytes.now)) }
{
    let mut held = Levels::new(alloc);
    let mut found = Vec::new(alloc);
    let mut rest = bytes;
    for _turn in 0..bytes.len() {
        if rest.is_empty() {
            return Ok(found);
        }
        match take_next(alloc, count, &mut held, &mut found, rest) {
            Ok(after) => rest = after,
            Err(e) => return Err(e),
        }
    }
    Ok(found)
}

// The length of the longest front that is UTF-8, where the whole isn't.
fn bad_utf8(bytes: &[u8]) -> Option<u32>
    requires { length bytes.now < 2 ^ 32 }
    ensures { MatchOption result (IsUtf8 bytes.now) (IsValidUpTo bytes.now) }
{
    match str::from_utf8(bytes) {
        Ok(_) => None,
        Err(e) => Some(e.valid_up_to() as u32),
    }
}

/// The tokens of the file of this number, which has these bytes; or the first rule of S1 to S7 that it breaks.
///
/// The first is the one of the earliest place, and of several there the one of the lowest number. Takes time linear in
/// the bytes.
pub fn scan(alloc: Global, file: u32, bytes: &[u8]) -> Result<Tokens, ScanError>
    requires { length bytes.now < 2 ^ 32 }
    ensures found { IfOk result (λ tokens. IsTokens bytes.now tokens.items) }
    ensures of_file { IfOk result (λ tokens. (tokens.file ≡ file) × (tokens.length ≡ length bytes.now)) }
    ensures ascend { IfOk result (λ tokens. Ascend (length bytes.now) 0 tokens.items) }
    ensures fault { IfErr result (Refuses bytes.now) }
{
    let length = bytes.len() as u32;
    let bad = bad_utf8(bytes);
    match scanned(alloc, length, bytes) {
        Ok(items) => match bad {
            Some(at) => Err(ScanError::Fault { at, rule: Rule::S1 }),
            None => Ok(Tokens {
                file,
                length,
                items: TokenList::from_vec(items),
            }),
        },
        Err(e) => Err(first_of(e, bad)),
    }
}

// Of two broken rules the first, S1 being broken at `bad`.
fn first_of(e: ScanError, bad: Option<u32>) -> ScanError
    ensures { result ≡ first_of e bad }
{
    match e {
        ScanError::Fault { at, rule } => match bad {
            Some(bad) if bad <= at => ScanError::Fault {
                at: bad,
                rule: Rule::S1,
            },
            _ => ScanError::Fault { at, rule },
        },
        ScanError::Memory => ScanError::Memory,
    }
}
