//! The climb from class to class that finds an order.
ghost use Rattle.std.specs.Prelude.{◌≡◌, ◌++◌, ◌+◌, ◌<◌, ◌^◌, ℕ, [], not, true, length, slice_get, slice_index_or, option_to_list, Some, IfOk, OnOk, OnSome};
ghost use Rattle.class_heads.specs.Supertypes.{IsAbove, named_by, supertypes_of};
ghost use Rattle.supertypes.specs.Climb as spec;

use class_heads::nodes::ClassNode;
use sqlite_items::{Items, at};
use std::alloc::{AllocError, Global};

/// A class on the way up, and how many of its supertypes were looked at.
#[derive(Clone, Copy)]
pub struct Step {
    pub class: u32,
    pub looked_at: usize,
}

/// A climb from classes to what they name. A class whose supertypes are all done comes into the order.
#[derive(Drop)]
pub struct Climb {
    /// By number, whether the class is on the way or in the order.
    pub is_begun: Items<bool>,
    pub way: Items<Step>,
    pub order: Items<u32>,
}

/// How many classes there are. There is no room for more than 2^32 - 1.
pub fn class_count(classes: &[ClassNode]) -> Result<u32, AllocError>
    ensures { IfOk result (λ count. count ≡ length classes.now) }
{
    u32::try_from(classes.len()).map_err(|_| AllocError)
}

fn interface_at(class: &ClassNode, place: usize) -> Option<u32>
    ensures value { result ≡ slice_get class.now.interfaces place }
    ensures fits { OnSome result (place < 2 ^ 63) }
{
    at(class.interfaces.as_slice(), place).copied()
}

fn behind_superclass(class: &ClassNode, place: usize) -> Option<u32>
    ensures value { result ≡ slice_get (option_to_list class.now.mixin ++ class.now.interfaces) place }
    ensures fits { OnSome result (place < 2 ^ 63 + 1) }
{
    match class.mixin {
        Some(mixin) => {
            if place == 0 {
                Some(mixin)
            } else {
                interface_at(class, place - 1)
            }
        }
        None => interface_at(class, place),
    }
}

/// What stands at a place among what a class names: the superclass first, then the mixin, then the interfaces.
fn named_at(class: &ClassNode, place: usize) -> Option<u32>
    ensures value { result ≡ slice_get (named_by (Some class.now)) place }
    ensures fits { OnSome result (place < 2 ^ 63 + 2) }
{
    match class.superclass {
        Some(superclass) => {
            if place == 0 {
                Some(superclass)
            } else {
                behind_superclass(class, place - 1)
            }
        }
        None => behind_superclass(class, place),
    }
}

#[tactic(auto, unfolding(class_heads::specs::Supertypes::supertypes_of))]
fn supertype_at(classes: &[ClassNode], class: u32, place: usize) -> Option<u32>
    ensures value { result ≡ slice_get (supertypes_of classes.now class) place }
    ensures fits { OnSome result (place < 2 ^ 63 + 2) }
{
    match at(classes, class as usize) {
        Some(class) => named_at(class, place),
        None => None,
    }
}

impl Climb {
    /// No class of so many is begun.
    pub fn new(alloc: Global, count: usize) -> Result<Climb, AllocError>
        ensures { IfOk result (λ climb. climb ≡ spec.not_begun count) }
    {
        let is_begun = Vec::from_elem(alloc, false, count)?;
        Ok(Climb {
            is_begun: Items::from_vec(is_begun),
            way: Items::new(alloc),
            order: Items::new(alloc),
        })
    }

    /// Whether this is the number of a class that is not begun.
    fn is_new(&self, class: u32) -> bool
        ensures { result ≡ not (spec.is_begun self.now class) }
    {
        match self.is_begun.get(class as usize) {
            Some(is_begun) => !*is_begun,
            None => false,
        }
    }

    fn begin(&mut self, class: u32) -> Result<(), AllocError>
        ensures { OnOk result (self.new ≡ spec.begun self.old class) }
    {
        if self.is_new(class) {
            self.is_begun.set(class as usize, true);
            self.way.push(Step {
                class,
                looked_at: 0,
            })?;
        }
        Ok(())
    }

    /// Goes on from the last step of the way, which was taken off.
    fn look(&mut self, classes: &[ClassNode], step: Step) -> Result<(), AllocError>
        ensures { OnOk result (self.new ≡ spec.looked classes.now self.old step) }
    {
        match supertype_at(classes, step.class, step.looked_at) {
            Some(next) => {
                self.way.push(Step {
                    class: step.class,
                    looked_at: step.looked_at + 1,
                })?;
                self.begin(next)
            }
            None => self.order.push(step.class),
        }
    }

    /// Brings a class into the order, and before it all that stands above it.
    pub fn climb_from(&mut self, classes: &[ClassNode], class: u32) -> Result<(), AllocError>
        requires no_cycles { (c : ℕ) → IsAbove classes.now c c → ⊥ }
        requires climbed { spec.HasClimbed classes.now class self.old }
        ensures { OnOk result (spec.HasClimbed classes.now (class + 1) self.new) }
    {
        self.begin(class)?;
        'way: while let Some(step) = self.way.pop() {
            self.look(classes, step)?;
        }
        Ok(())
    }
}
