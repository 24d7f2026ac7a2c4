//! The words behind the name of a call.

use crate::values::value_of;
use anyhow::{Context, Result};
use bumpalo::Bump;
use dart_store::Value;
use std::alloc::Global;

/// The words, and where what they stand for is made.
#[derive(Clone, Copy)]
pub struct Arguments<'a, 'w> {
    pub alloc: Global,
    pub arena: &'a Bump,
    pub words: &'w [&'w str],
}

impl<'a, 'w> Arguments<'a, 'w> {
    /// The word at this place.
    pub fn word(&self, at: usize) -> Result<&'w str> {
        self.words
            .get(at)
            .copied()
            .context("an argument is missing")
    }

    /// The value at this place.
    pub fn value(&self, at: usize) -> Result<Value<'a>> {
        value_of(self.alloc, self.arena, self.word(at)?)
    }

    /// All the values.
    pub fn values(&self) -> Result<Vec<Value<'a>>> {
        let mut values = Vec::new(self.alloc);
        for word in self.words {
            values.push(value_of(self.alloc, self.arena, *word)?)?;
        }
        Ok(values)
    }

    /// The number at this place.
    pub fn number(&self, at: usize) -> Result<u32> {
        Ok(self.word(at)?.parse::<u32>()?)
    }

    /// The count at this place.
    pub fn count(&self, at: usize) -> Result<u64> {
        Ok(self.word(at)?.parse::<u64>()?)
    }

    /// The address at this place, of what is of this kind.
    pub fn address(&self, at: usize, kind: &str) -> Result<usize> {
        let digits = self
            .word(at)?
            .strip_prefix(kind)
            .context("the argument is of another kind")?;
        Ok(digits.parse::<usize>()?)
    }
}
