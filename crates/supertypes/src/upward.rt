//! An order of classes in which what a class names in its head stands before it.
ghost use Rattle.std.specs.Prelude.{ℕ, IfOk};
ghost use Rattle.class_heads.specs.Supertypes.{IsAbove};
ghost use Rattle.supertypes.specs.Upward.{IsUpward};

use crate::climb::{Climb, class_count};
use class_heads::nodes::ClassNode;
use sqlite_items::Items;
use std::alloc::{AllocError, Global};

/// An order of the classes in which what a class names in its head stands before it. Takes time and memory in the classes
/// and what they name.
pub fn upward(alloc: Global, classes: &[ClassNode]) -> Result<Items<u32>, AllocError>
    requires no_cycles { (c : ℕ) → IsAbove classes.now c c → ⊥ }
    ensures { IfOk result (IsUpward classes.now) }
{
    let count = class_count(classes)?;
    let mut climb = Climb::new(alloc, classes.len())?;
    for class in 0..count {
        climb.climb_from(classes, class)?;
    }
    let Climb {
        order,
        way: _,
        is_begun: _,
    } = climb;
    Ok(order)
}
