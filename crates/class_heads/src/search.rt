//! Whether a class stands above itself.
ghost use Rattle.std.specs.Prelude.{◌≡◌, true, false, not, option_to_list, slice_index_or, IfOk, OnOk, MatchBool};
ghost use Rattle.class_heads.specs.Search as spec;
ghost use Rattle.class_heads.specs.Supertypes.{IsAbove, supertypes_of};

use crate::nodes::ClassNode;
use sqlite_items::{Items, at};
use std::alloc::{AllocError, Global};

/// Which classes were seen, by their numbers, and these in the order in which they were first seen.
#[derive(Drop)]
pub struct Search {
    pub is_seen: Items<bool>,
    pub seen: Items<u32>,
}

impl Search {
    /// No class of so many was seen.
    fn new(alloc: Global, count: usize) -> Result<Search, AllocError>
        ensures { IfOk result (λ search. search ≡ spec.none_seen count) }
    {
        let is_seen = Vec::from_elem(alloc, false, count)?;
        Ok(Search {
            is_seen: Items::from_vec(is_seen),
            seen: Items::new(alloc),
        })
    }

    /// Whether this is the number of a class that was not seen.
    fn is_new(&self, class: u32) -> bool
        ensures { result ≡ not (slice_index_or self.now.is_seen class true) }
    {
        match self.is_seen.get(class as usize) {
            Some(is_seen) => !*is_seen,
            None => false,
        }
    }

    /// Whether this class was seen.
    fn has_seen(&self, class: u32) -> bool
        ensures { result ≡ slice_index_or self.now.is_seen class false }
    {
        match self.is_seen.get(class as usize) {
            Some(is_seen) => *is_seen,
            None => false,
        }
    }

    fn see(&mut self, class: u32) -> Result<(), AllocError>
        ensures { OnOk result (self.new ≡ spec.seen_one self.old class) }
    {
        if self.is_new(class) {
            self.seen.push(class)?;
            self.is_seen.set(class as usize, true);
        }
        Ok(())
    }

    fn see_all(&mut self, classes: &[u32]) -> Result<(), AllocError>
        ensures { OnOk result (self.new ≡ spec.seen_all self.old classes.now) }
    {
        for class in classes {
            self.see(*class)?;
        }
        Ok(())
    }

    fn see_if_any(&mut self, class: Option<u32>) -> Result<(), AllocError>
        ensures { OnOk result (self.new ≡ spec.seen_all self.old (option_to_list class)) }
    {
        match class {
            Some(class) => self.see(class),
            None => Ok(()),
        }
    }

    /// Sees what a class names in its head.
    #[tactic(auto, unfolding(crate::specs::Supertypes::supertypes_of), using(crate::proofs::Searches::seen_joined))]
    fn see_supertypes(&mut self, classes: &[ClassNode], class: u32) -> Result<(), AllocError>
        ensures { OnOk result (self.new ≡ spec.seen_all self.old (supertypes_of classes.now class)) }
    {
        match at(classes, class as usize) {
            Some(class) => {
                self.see_if_any(class.superclass)?;
                self.see_if_any(class.mixin)?;
                self.see_all(class.interfaces.as_slice())
            }
            None => Ok(()),
        }
    }
}

/// Whether a class is its own superclass, mixin or interface through any number of steps. Takes time and memory in the
/// classes and what they name.
pub fn is_above_itself(alloc: Global, classes: &[ClassNode], class: u32) -> Result<bool, AllocError>
    ensures { IfOk result (λ found. MatchBool found (IsAbove classes.now class class) (IsAbove classes.now class class → ⊥)) }
{
    let mut search = Search::new(alloc, classes.len())?;
    search.see_supertypes(classes, class)?;
    let mut done = 0usize;
    'search: while let Some(next) = at(search.seen.as_slice(), done) {
        let next = *next;
        search.see_supertypes(classes, next)?;
        done += 1;
    }
    Ok(search.has_seen(class))
}
