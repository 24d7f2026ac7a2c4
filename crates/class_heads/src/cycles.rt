//! Which classes stand above themselves.
ghost use Rattle.std.specs.Prelude.{◌≡◌, false, replicate, IfOk};
ghost use Rattle.class_heads.specs.Supertypes as spec;

use crate::nodes::ClassNode;
use crate::ranks::{fall, ranks};
use crate::search::is_above_itself;
use library_scopes::reading::one_more;
use sqlite_items::Items;
use std::alloc::{AllocError, Global};

fn none(alloc: Global, count: usize) -> Result<Items<bool>, AllocError>
    ensures { IfOk result (λ flags. flags ≡ replicate count false) }
{
    let flags = Vec::from_elem(alloc, false, count)?;
    Ok(Items::from_vec(flags))
}

/// Searches from each class.
#[tactic(auto, using(crate::proofs::Falling::no_class, crate::proofs::Falling::one_class_more, crate::proofs::Falling::each_class))]
fn search_all(alloc: Global, classes: &[ClassNode]) -> Result<Items<bool>, AllocError>
    ensures { IfOk result (spec.AreCycles classes.now) }
{
    let mut flags = Items::new(alloc);
    let mut number = 0;
    for _class in classes {
        flags.push(is_above_itself(alloc, classes, number)?)?;
        number = one_more(number)?;
    }
    Ok(flags)
}

/// For each class, by its number, whether it is its own superclass, mixin or interface through any number of steps. Takes
/// time linear in the classes and what they name where none is; else a search from each class.
#[tactic(auto, using(crate::proofs::Falling::none_above))]
pub fn cycles(alloc: Global, classes: &[ClassNode]) -> Result<Items<bool>, AllocError>
    ensures { IfOk result (spec.AreCycles classes.now) }
{
    let ranks = ranks(alloc, classes)?;
    if fall(classes, ranks.as_slice()) {
        none(alloc, classes.len())
    } else {
        search_all(alloc, classes)
    }
}
