//! Whose body each class has.
ghost use Rattle.std.specs.Prelude.{◌≡◌, slice_index_or, IfOk};
ghost use Rattle.class_heads.specs.Origins.{mixin_of};
ghost use Rattle.class_heads.specs.Sources.{classes_in};
ghost use Rattle.supertypes.specs.Upward.{IsUpward};
ghost use Rattle.member_tables.specs.Origins.{body_behind, AreOrigins};

use class_heads::nodes::ClassNode;
use class_heads::origins::mixin_of;
use class_members::program::ProgramClasses;
use sqlite_items::{Items, at};
use std::alloc::{AllocError, Global};

fn body_of(origins: &[u32], class: u32) -> u32
    ensures { result ≡ slice_index_or origins.now class class }
{
    match at(origins, class as usize) {
        Some(origin) => *origin,
        None => class,
    }
}

/// The class whose body this one has, where that of its mixin is known.
fn origin_of(classes: &[ClassNode], origins: &[u32], class: u32) -> u32
    ensures { result ≡ body_behind origins.now class (mixin_of classes.now class) }
{
    match mixin_of(classes, class) {
        Some(mixin) => body_of(origins, mixin),
        None => class,
    }
}

/// The class whose body each class has, by its number: that of its mixin, where it has one. Each is found in one step, since
/// a mixin stands before the class in the order.
pub fn find_origins(
    alloc: Global,
    program: &ProgramClasses<'_>,
    order: &[u32],
) -> Result<Items<u32>, AllocError>
    requires upward { IsUpward (classes_in program.now) order.now }
    ensures { IfOk result (AreOrigins program.now) }
{
    let classes = program.classes();
    let mut origins = Items::from_vec(Vec::from_elem(alloc, 0, classes.len())?);
    for class in order {
        let origin = origin_of(classes, origins.as_slice(), *class);
        origins.set(*class as usize, origin);
    }
    Ok(origins)
}
