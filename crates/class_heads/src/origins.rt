//! Superclasses alone, and whose body a class has.
ghost use Rattle.std.specs.Prelude.{◌≡◌};
ghost use Rattle.std.specs.List.{list_any};
ghost use Rattle.class_heads.specs.Faults.{has_origin, is_above_with, is_number};
ghost use Rattle.class_heads.specs.Origins as spec;

use crate::nodes::ClassNode;
use sqlite_items::at;

/// The superclass of a class.
#[tactic(auto, unfolding(crate::specs::Origins::superclass_of))]
pub fn superclass_of(classes: &[ClassNode], class: u32) -> Option<u32>
    ensures { result ≡ spec.superclass_of classes.now class }
{
    at(classes, class as usize)?.superclass
}

/// The mixin of a class.
#[tactic(auto, unfolding(crate::specs::Origins::mixin_of))]
pub fn mixin_of(classes: &[ClassNode], class: u32) -> Option<u32>
    ensures { result ≡ spec.mixin_of classes.now class }
{
    at(classes, class as usize)?.mixin
}

/// The class whose body this one has: that of its mixin, where it has one. None where no such class ends the way through mixins.
/// Takes time in the length of that way.
#[tactic(auto, unfolding(crate::specs::Origins::origin))]
pub fn origin(classes: &[ClassNode], class: u32) -> Option<u32>
    ensures { result ≡ spec.origin classes.now class }
{
    let mut class = class;
    for _class in classes {
        match mixin_of(classes, class) {
            Some(mixin) => class = mixin,
            None => return Some(class),
        }
    }
    None
}

/// Whether this is that number.
pub fn is_number(number: Option<u32>, other: u32) -> bool
    ensures { result ≡ is_number number other }
{
    match number {
        Some(number) => number == other,
        None => false,
    }
}

fn has_origin(classes: &[ClassNode], body: u32, class: u32) -> bool
    ensures { result ≡ has_origin classes.now body class }
{
    is_number(origin(classes, class), body)
}

/// Whether a superclass of a class has the body of another one.
#[tactic(auto, unfolding(crate::specs::Origins::superclasses))]
pub fn is_above_with(classes: &[ClassNode], class: u32, body: u32) -> bool
    ensures { result ≡ is_above_with classes.now class body }
{
    let mut class = class;
    for _class in classes {
        match superclass_of(classes, class) {
            Some(superclass) => {
                if has_origin(classes, body, superclass) {
                    return true;
                }
                class = superclass;
            }
            None => return false,
        }
    }
    false
}
