//! A text as its UTF-16 units.
ghost use Rattle.std.specs.Prelude.{◌≡◌, ◌↔◌, ◌+◌, ◌-◌, ◌≤◌, ◌<◌, ◌==◌, [], ◌∷◌, ◌++◌, length, take, drop, slice_get, IsTrue, false, vec_len, vec_capacity, IsOk, IfOk, IfErr, OnOk, OnErr, MatchOption, List, ℕ};
ghost use Rattle.std.specs.Char.Escape.{encode_utf16};
ghost use Rattle.std.specs.Char.Utf16.{has_unpaired_surrogate};
ghost use Rattle.std.specs.Str.{IsUtf8};
ghost use Rattle.code_units.specs.Text.{units_of, utf8_of, IsRefusalOf};
ghost use Rattle.code_units.specs.declared.text.TextError.TheVariants.{Memory};

use crate::bytes::Bytes;
use std::alloc::{AllocError, Global};
use std::marker::Model;
use thiserror::Error;

/// Text, seen as the list of its UTF-16 units. A surrogate may stand alone.
#[derive(Debug, Drop)]
pub struct Text {
    units: Vec<u16>,
    alloc: Global,
}

impl Model for Text {
    ghost use Rattle.std.specs.Prelude.{List, ℕ};

    ghost Value = { List ℕ };

    ghost view = { λ text. text.units.items };
}

/// Why bytes gave no text.
#[derive(Clone, Copy, Debug, PartialEq, Eq, Error)]
pub enum TextError {
    /// The bytes are not UTF-8; their longest front that is UTF-8 has `at` bytes.
    #[error("not UTF-8 at byte {at}")]
    BadUtf8 { at: u64 },
    /// Memory was wanting.
    #[error("out of memory")]
    Memory,
}

impl From<AllocError> for TextError {
    ghost from_gives = { λ _ e. e ≡ Memory };

    fn from(_: AllocError) -> TextError {
        TextError::Memory
    }
}

impl Text {
    /// The empty text.
    pub fn new(alloc: Global) -> Text
        ensures { result ≡ [] }
    {
        Text {
            units: Vec::new(alloc),
            alloc,
        }
    }

    /// The text of these units.
    pub fn from_slice(alloc: Global, units: &[u16]) -> Result<Text, AllocError>
        ensures { IfOk result (λ text. text ≡ units.now) }
    {
        let units = Vec::from_slice(alloc, units)?;
        Ok(Text { units, alloc })
    }

    /// The text of these units, without a copy.
    pub fn from_vec(alloc: Global, units: Vec<u16>) -> Text
        ensures { result ≡ units.items }
    {
        Text { units, alloc }
    }

    /// The units as a vector, without a copy.
    pub fn into_vec(self) -> Vec<u16>
        ensures { result.items ≡ self }
    {
        let Text { units, .. } = self;
        units
    }

    /// The text of these UTF-8 bytes.
    pub fn from_utf8(alloc: Global, bytes: &[u8]) -> Result<Text, TextError>
        ensures ok { IfOk result (λ text. IsUtf8 bytes.now × (text ≡ units_of bytes.now)) }
        ensures err { IfErr result (IsRefusalOf bytes.now) }
    {
        match str::from_utf8(bytes) {
            Ok(text) => Ok(Text::from_str(alloc, text)?),
            Err(e) => Err(TextError::BadUtf8 {
                at: e.valid_up_to() as u64,
            }),
        }
    }

    /// The text of these characters.
    pub fn from_str(alloc: Global, text: &str) -> Result<Text, AllocError>
        ensures { IfOk result (λ made. made ≡ units_of text.now) }
    {
        let mut units = Vec::new(alloc);
        push_units(&mut units, text)?;
        Ok(Text { units, alloc })
    }

    /// The UTF-8 bytes of the text. A surrogate that has no partner becomes U+FFFD.
    pub fn to_utf8(&self) -> Result<Bytes, AllocError>
        ensures { IfOk result (λ bytes. bytes ≡ utf8_of self.now) }
    {
        let text = String::from_utf16_lossy(self.alloc, self.units.as_slice())?;
        Ok(Bytes::from_vec(text.into_bytes()))
    }

    /// Whether this is the text of these characters: it has no lone surrogate, and these are its UTF-8 bytes. Takes
    /// no memory.
    pub fn is(&self, text: &str) -> bool
        ensures units { IsTrue result ↔ (self.now ≡ units_of text.now) }
        ensures utf8 { IsTrue result ↔ ((has_unpaired_surrogate self.now ≡ false) × (utf8_of self.now ≡ text.now)) }
    {
        is_text(self.units.as_slice(), text)
    }

    /// How many units there are.
    pub fn len(&self) -> u64
        ensures { result ≡ length self.now }
    {
        self.units.len() as u64
    }

    /// Whether there is no unit.
    pub fn is_empty(&self) -> bool
        ensures { result ≡ (length self.now == 0) }
    {
        self.units.is_empty()
    }

    /// The unit at place `i`, counted from 0.
    pub fn unit(&self, i: u64) -> u16
        requires { i < length self.now }
        ensures { slice_get self.now i ≡ Some result }
    {
        self.units[i as usize]
    }

    /// The units as a slice.
    pub fn as_slice(&self) -> &[u16]
        ensures { result.now ≡ self.now }
    {
        self.units.as_slice()
    }

    /// A copy of the units from place `from` up to, and without, place `to`.
    pub fn slice(&self, from: u64, to: u64) -> Result<Text, AllocError>
        requires ordered { from ≤ to }
        requires within { to ≤ length self.now }
        ensures { IfOk result (λ part. part ≡ take (to - from) (drop from self.now)) }
    {
        Text::from_slice(self.alloc, &self.units[from as usize..to as usize])
    }

    /// A copy of the text.
    pub fn copy(&self) -> Result<Text, AllocError>
        ensures { IfOk result (λ same. same ≡ self.now) }
    {
        Text::from_slice(self.alloc, self.units.as_slice())
    }

    /// Adds the units of these characters behind all others. Want of memory leaves the text as it was.
    pub fn push_str(&mut self, text: &str) -> Result<(), AllocError>
        ensures ok { OnOk result (self.new ≡ self.old ++ units_of text.now) }
        ensures err { OnErr result (self.new ≡ self.old) }
    {
        push_units(&mut self.units, text)
    }

    /// Adds `units` behind all others. Want of memory leaves the text as it was.
    pub fn extend(&mut self, units: &[u16]) -> Result<(), AllocError>
        ensures ok { OnOk result (self.new ≡ self.old ++ units.now) }
        ensures err { OnErr result (self.new ≡ self.old) }
    {
        self.units.extend_from_slice(units)
    }

    /// Adds a unit behind all others. Want of memory leaves the text as it was.
    pub fn push(&mut self, unit: u16) -> Result<(), AllocError>
        ensures ok { OnOk result (self.new ≡ self.old ++ unit ∷ []) }
        ensures err { OnErr result (self.new ≡ self.old) }
    {
        self.units.push(unit)?;
        Ok(())
    }
}

/// Adds the units of these characters behind all others. Want of memory leaves the units as they were, and comes
/// only where there was no room for as many units as the text has bytes.
pub fn push_units(units: &mut Vec<u16>, text: &str) -> Result<(), AllocError>
    ensures ok { OnOk result (units.new.items ≡ units.old.items ++ units_of text.now) }
    ensures err { OnErr result (units.new.items ≡ units.old.items) }
    ensures capacity { vec_capacity units.old ≤ vec_capacity units.new }
    ensures succeeds { vec_len units.old + length text.now ≤ vec_capacity units.old → IsOk result }
{
    units.reserve(text.len())?;
    push_within(units, text);
    Ok(())
}

// The same where there is room.
fn push_within(units: &mut Vec<u16>, text: &str)
    requires { vec_len units.old + length text.now ≤ vec_capacity units.old }
    ensures items { units.new.items ≡ units.old.items ++ units_of text.now }
    ensures capacity { vec_capacity units.old ≤ vec_capacity units.new }
{
    for c in text.chars() {
        push_char(units, c);
    }
}

// Adds the units of a character where there is room for them.
fn push_char(units: &mut Vec<u16>, c: char)
    requires { vec_len units.old + length (encode_utf16 c) ≤ vec_capacity units.old }
    ensures items { units.new.items ≡ units.old.items ++ encode_utf16 c }
    ensures len { vec_len units.new ≡ vec_len units.old + length (encode_utf16 c) }
    ensures capacity { vec_capacity units.old ≤ vec_capacity units.new }
{
    let code = c as u32;
    if code < 0x1_0000 {
        push_unit(units, code as u16);
    } else {
        let over = code - 0x1_0000;
        push_unit(units, (0xD800 + over / 0x400) as u16);
        push_unit(units, (0xDC00 + over % 0x400) as u16);
    }
}

// Adds a unit where there is room for it.
fn push_unit(units: &mut Vec<u16>, unit: u16)
    requires { vec_len units.old < vec_capacity units.old }
    ensures items { units.new.items ≡ units.old.items ++ unit ∷ [] }
    ensures len { vec_len units.new ≡ vec_len units.old + 1 }
    ensures capacity { vec_capacity units.old ≤ vec_capacity units.new }
{
    let _ = units.push(unit);
}

// Whether these are the units of the text, which then is their UTF-8.
fn is_text(units: &[u16], text: &str) -> bool
    ensures units { IsTrue result ↔ (units.now ≡ units_of text.now) }
    ensures utf8 { IsTrue result ↔ ((has_unpaired_surrogate units.now ≡ false) × (utf8_of units.now ≡ text.now)) }
{
    spell(units, text)
}

// Whether these are the units of the text.
fn spell(units: &[u16], text: &str) -> bool
    ensures { IsTrue result ↔ (units.now ≡ units_of text.now) }
{
    let mut rest = units;
    for c in text.chars() {
        match after_char(rest, c) {
            Some(more) => rest = more,
            None => return false,
        }
    }
    rest.is_empty()
}

// What follows the units of a character, where they stand in front.
fn after_char(units: &[u16], c: char) -> Option<&[u16]>
    ensures { MatchOption result ((more : List ℕ) → ¬ (units.now ≡ encode_utf16 c ++ more)) (λ more. units.now ≡ encode_utf16 c ++ more.now) }
{
    let code = c as u32;
    if code < 0x1_0000 {
        let (first, more) = units.split_first()?;
        if u32::from(*first) == code {
            Some(more)
        } else {
            None
        }
    } else {
        let over = code - 0x1_0000;
        let (first, more) = units.split_first()?;
        let (second, more) = more.split_first()?;
        if u32::from(*first) == 0xD800 + over / 0x400
            && u32::from(*second) == 0xDC00 + over % 0x400
        {
            Some(more)
        } else {
            None
        }
    }
}
