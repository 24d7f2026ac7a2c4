//! Names, and those that are declared so far.

ghost use Rattle.std.specs.Prelude.{◌≡◌, [], not, ◌==◌, IfOk};
ghost use Rattle.std.specs.List.{list_all, list_any};
ghost use Rattle.js_tree.specs.Tokens.{is_part};
ghost use Rattle.js_tree.specs.Grammar as grammar;
ghost use Rattle.js_reader.specs.Taking.{added};

use crate::bytes::{Class, is_digit, next};
use indexmap::IndexSet;
use std::alloc::{AllocError, Global};
use std::marker::Model;

/// The names that are declared so far; contracts see the last one first.
#[derive(Drop)]
pub struct Declared<'a> {
    names: IndexSet<&'a [u8]>,
}

impl<'a> Model for Declared<'a> {
    ghost use Rattle.std.specs.Prelude.{List, ℕ, map, reverse};
    ghost use Rattle.std.specs.Coded.{coded_list, coded_ℕ};

    ghost Value = { List (List ℕ) };

    ghost coded = { coded_list (coded_list coded_ℕ) };

    ghost view = { λ it. reverse (map (λ k. k.now) it.names.keys) };
}

impl<'a> Declared<'a> {
    /// No name.
    pub fn new(alloc: Global) -> Declared<'a>
        ensures { result ≡ [] }
    {
        Declared {
            names: IndexSet::new(alloc),
        }
    }

    /// Declares a name; false where it was declared before.
    pub fn declare(&mut self, name: &'a [u8]) -> Result<bool, AllocError>
        ensures fresh { IfOk result (λ fresh. fresh ≡ not (grammar.is_among self.old name.now)) }
        ensures names { IfOk result (λ fresh. self.new ≡ added fresh name.now self.old) }
    {
        let fresh = self.names.insert(name)?;
        Ok(fresh)
    }
}

fn has_dollar(text: &[u8]) -> bool
    ensures { result ≡ list_any (λ c. c == 36) text.now }
{
    let mut rest = text;
    'text: while let Some((b, more)) = next(rest) {
        if b == b'$' {
            return true;
        }
        rest = more;
    }
    false
}

/// Whether these are letters, digits, `_` and `$` alone.
#[tactic(auto, using(crate::proofs::Named::all_parts, crate::proofs::Named::other_part))]
fn has_parts_alone(text: &[u8]) -> bool
    ensures { result ≡ list_all is_part text.now }
{
    next(Class::Part.past(text)).is_none()
}

/// Whether this is a name: letters, digits, `_` and at least one `$`, and no digit first.
pub fn is_name(text: &[u8]) -> bool
    ensures { result ≡ grammar.is_name text.now }
{
    match next(text) {
        Some((first, _)) => !is_digit(first) && has_parts_alone(text) && has_dollar(text),
        None => false,
    }
}
