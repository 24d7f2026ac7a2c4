//! One token at a time. A slice of a file that ends where the file ends, and begins where a token ends, stands for the
//! tokens that are left.

ghost use Rattle.std.specs.Prelude.{◌≡◌, ◌∷◌, IfOk};
ghost use Rattle.js_reader.specs.Scanning.{tokens_of};
ghost use Rattle.js_reader.specs.Taking as spec;
ghost use Rattle.js_reader.specs.Taking.{Gives};

use crate::bytes::{Class, line_ends, next, run, sign};
use crate::fault::JsFault;
use crate::names::{Declared, is_name};
use crate::numbers::number_of;
use crate::strings::quoted;
use crate::words::member_of;
use js_tree::JsMember;
use sqlite_items::Items;
use std::alloc::Global;

/// A file of so many bytes.
#[derive(Clone, Copy)]
pub struct Source {
    pub alloc: Global,
    pub size: usize,
}

impl Source {
    /// Where the next token begins, or the file's size.
    #[tactic(auto, using(crate::proofs::Scanned::place_is))]
    pub fn place(self, bytes: &[u8]) -> u64
        ensures { result ≡ spec.place self.size (tokens_of self.size bytes.now) }
    {
        let rest = Class::Blank.past(bytes);
        self.size.saturating_sub(rest.len()) as u64
    }

    /// The next token can't be taken on.
    pub fn fault(self, bytes: &[u8]) -> JsFault
        ensures { result ≡ spec.refused self.size (tokens_of self.size bytes.now) }
    {
        JsFault::NotInProfile {
            at: self.place(bytes),
        }
    }

    /// Whether there is no further token.
    #[tactic(auto, using(crate::proofs::Scanned::at_end, crate::proofs::Scanned::before_end))]
    pub fn is_end(self, bytes: &[u8]) -> bool
        ensures { result ≡ spec.is_end (tokens_of self.size bytes.now) }
    {
        next(Class::Blank.past(bytes)).is_none()
    }

    /// Whether a line ends before the next token, if there is one.
    #[tactic(auto, using(crate::proofs::Scanned::line_is))]
    pub fn on_new_line(self, bytes: &[u8]) -> bool
        ensures { result ≡ spec.on_new_line (tokens_of self.size bytes.now) }
    {
        !self.is_end(bytes) && line_ends(bytes)
    }

    /// The bytes of the next token, if it is a run, and what follows it.
    #[tactic(auto, using(crate::proofs::Scanned::word_is, crate::proofs::Scanned::word_taken, crate::proofs::Scanned::word_missing))]
    pub fn word(self, bytes: &[u8]) -> (&[u8], &[u8])
        ensures text { result.0.now ≡ spec.word_of (tokens_of self.size bytes.now) }
        ensures rest { tokens_of self.size result.1.now ≡ spec.after_word (tokens_of self.size bytes.now) }
    {
        let (text, rest) = run(Class::Blank.past(bytes));
        match next(text) {
            Some(_) => (text, rest),
            None => (text, bytes),
        }
    }

    /// The bytes of the next token, if it is a sign, and what follows it.
    #[tactic(auto, using(crate::proofs::Scanned::sign_is, crate::proofs::Scanned::sign_taken, crate::proofs::Scanned::sign_missing))]
    pub fn sign(self, bytes: &[u8]) -> (&[u8], &[u8])
        ensures text { result.0.now ≡ spec.sign_of (tokens_of self.size bytes.now) }
        ensures rest { tokens_of self.size result.1.now ≡ spec.after_sign (tokens_of self.size bytes.now) }
    {
        let (text, rest) = sign(Class::Blank.past(bytes));
        match next(text) {
            Some(_) => (text, rest),
            None => (text, bytes),
        }
    }

    /// What follows this sign.
    #[tactic(auto, unfolding(crate::specs::Taking::expect))]
    pub fn expect<'t>(self, text: &[u8], bytes: &'t [u8]) -> Result<&'t [u8], JsFault>
        ensures { Gives (λ rest. tokens_of self.size rest.now) result (spec.expect self.size text.now (tokens_of self.size bytes.now)) }
    {
        let (sign, rest) = self.sign(bytes);
        if sign == text {
            Ok(rest)
        } else {
            Err(self.fault(bytes))
        }
    }

    /// What follows this word.
    #[tactic(auto, unfolding(crate::specs::Taking::expect_word))]
    pub fn expect_word<'t>(self, text: &[u8], bytes: &'t [u8]) -> Result<&'t [u8], JsFault>
        ensures { Gives (λ rest. tokens_of self.size rest.now) result (spec.expect_word self.size text.now (tokens_of self.size bytes.now)) }
    {
        let (word, rest) = self.word(bytes);
        if word == text {
            Ok(rest)
        } else {
            Err(self.fault(bytes))
        }
    }

    /// The same place, unless the next token is on a new line.
    #[tactic(auto, unfolding(crate::specs::Taking::on_line))]
    pub fn on_line(self, bytes: &[u8]) -> Result<&[u8], JsFault>
        ensures { Gives (λ rest. tokens_of self.size rest.now) result (spec.on_line self.size (tokens_of self.size bytes.now)) }
    {
        if self.on_new_line(bytes) {
            Err(self.fault(bytes))
        } else {
            Ok(bytes)
        }
    }

    /// A name.
    #[tactic(auto, unfolding(crate::specs::Taking::name_at))]
    pub fn name(self, bytes: &[u8]) -> Result<(Items<u8>, &[u8]), JsFault>
        ensures { Gives (λ x. (x.0, tokens_of self.size x.1.now)) result (spec.name_at self.size (tokens_of self.size bytes.now)) }
    {
        let (word, rest) = self.word(bytes);
        if is_name(word) {
            let name = Items::from_slice(self.alloc, word)?;
            Ok((name, rest))
        } else {
            Err(self.fault(bytes))
        }
    }

    /// A name that is declared with it.
    #[tactic(auto, unfolding(crate::specs::Taking::fresh_name))]
    pub fn fresh_name<'t>(
        self,
        names: &mut Declared<'t>,
        bytes: &'t [u8],
    ) -> Result<(Items<u8>, &'t [u8]), JsFault>
        ensures name { Gives (λ x. (x.0, tokens_of self.size x.1.now)) result (spec.fresh_name self.size names.old (tokens_of self.size bytes.now)) }
        ensures names { IfOk result (λ x. names.new ≡ x.0 ∷ names.old) }
    {
        let (word, rest) = self.word(bytes);
        if is_name(word) && names.declare(word)? {
            let name = Items::from_slice(self.alloc, word)?;
            Ok((name, rest))
        } else {
            Err(self.fault(bytes))
        }
    }

    /// A whole number.
    #[tactic(auto, unfolding(crate::specs::Taking::number_at))]
    pub fn number(self, bytes: &[u8]) -> Result<(u64, &[u8]), JsFault>
        ensures { Gives (λ x. (x.0, tokens_of self.size x.1.now)) result (spec.number_at self.size (tokens_of self.size bytes.now)) }
    {
        let (word, rest) = self.word(bytes);
        match number_of(word) {
            Some(number) => Ok((number, rest)),
            None => Err(self.fault(bytes)),
        }
    }

    /// A member.
    #[tactic(auto, unfolding(crate::specs::Taking::member_at))]
    pub fn member(self, bytes: &[u8]) -> Result<(JsMember, &[u8]), JsFault>
        ensures { Gives (λ x. (x.0, tokens_of self.size x.1.now)) result (spec.member_at self.size (tokens_of self.size bytes.now)) }
    {
        let (word, rest) = self.word(bytes);
        match member_of(word) {
            Some(member) => Ok((member, rest)),
            None => Err(self.fault(bytes)),
        }
    }

    /// A string, as its units.
    #[tactic(auto, using(crate::proofs::Scanned::no_string, crate::proofs::Scanned::string_read), unfolding(crate::specs::Taking::string_at))]
    pub fn string(self, bytes: &[u8]) -> Result<(Items<u16>, &[u8]), JsFault>
        ensures { Gives (λ x. (x.0, tokens_of self.size x.1.now)) result (spec.string_at self.size (tokens_of self.size bytes.now)) }
    {
        match quoted(self.alloc, Class::Blank.past(bytes))? {
            Some(found) => Ok(found),
            None => Err(self.fault(bytes)),
        }
    }
}
