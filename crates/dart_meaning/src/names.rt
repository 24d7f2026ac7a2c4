//! The names that are declared so far.

ghost use Rattle.std.specs.Prelude.{◌≡◌, MatchOption, IfOk, OnOk};
ghost use Rattle.dart_meaning.specs.Scope as spec;

use indexmap::IndexMap;
use std::alloc::{AllocError, Global};
use std::marker::Model;

/// The names that are declared so far, in order, and of each whether it stands for a text.
#[derive(Drop)]
pub struct Names<'a> {
    kinds: IndexMap<&'a [u16], bool>,
}

impl<'a> Model for Names<'a> {
    ghost use Rattle.std.specs.Prelude.{map};
    ghost use Rattle.dart_meaning.specs.Scope.{Scope, coded_Scope};

    ghost Value = { Scope };

    ghost coded = { coded_Scope };

    ghost view = { λ names. record { names = map (λ e. e.0.now) names.kinds.entries; kinds = map (λ e. e.1) names.kinds.entries } };
}

impl<'a> Names<'a> {
    /// No name.
    pub fn new(alloc: Global) -> Names<'a>
        ensures { result ≡ spec.no_names }
    {
        Names {
            kinds: IndexMap::new(alloc),
        }
    }

    /// The place of a name, counted from 0, and whether it stands for a text.
    pub fn find(&self, name: &[u16]) -> Option<(u64, bool)>
        ensures { result ≡ spec.find name.now self.now }
    {
        let (place, _, is_text) = self.kinds.get_full(name)?;
        Some((place as u64, *is_text))
    }

    /// Declares a name; false where it was declared before.
    pub fn declare(&mut self, name: &'a [u16], is_text: bool) -> Result<bool, AllocError>
        ensures { IfOk result (λ fresh. spec.declared fresh self.new ≡ spec.declare name.now is_text self.old) }
    {
        let before = self.kinds.insert(name, is_text)?;
        Ok(before.is_none())
    }
}
