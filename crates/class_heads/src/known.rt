//! What is known of the classes of a program when their rules are looked for.
ghost use Rattle.std.specs.Prelude.{◌≡◌, Some, slice_get};
ghost use Rattle.class_heads.specs.Faults as spec;
ghost use Rattle.library_scopes.specs.Names.{is_among};
ghost use Rattle.class_heads.specs.Rules.{closed_names};

use crate::bodies::{BodyFacts, NO_BODY};
use crate::naming::Naming;
use crate::nodes::ClassNode;
use crate::origins::{is_above_with, is_number, origin, superclass_of};
use dart_sites::lent::LentSlice;
use sqlite_items::at;

/// The classes of a program by their numbers, what rules ask of their bodies, and which stand above themselves.
#[derive(Drop)]
pub struct Known<'a> {
    pub naming: Naming<'a>,
    pub classes: LentSlice<'a, ClassNode>,
    pub bodies: LentSlice<'a, BodyFacts>,
    pub cycles: LentSlice<'a, bool>,
}

fn is_another(object: Option<u32>, superclass: Option<u32>) -> bool
    ensures { result ≡ spec.is_another object superclass }
{
    match superclass {
        Some(superclass) => !is_number(object, superclass),
        None => false,
    }
}

/// Whether this is the name of a class of the prelude that no other file extends, mixes in or implements.
fn is_closed_name(name: &[u16]) -> bool
    ensures { result ≡ is_among name.now closed_names }
{
    // `Null`, `bool`, `num`, `int`, `String`, `List`, `Map`, `Function`, `Future`
    name == [78, 117, 108, 108].as_slice()
        || name == [98, 111, 111, 108].as_slice()
        || name == [110, 117, 109].as_slice()
        || name == [105, 110, 116].as_slice()
        || name == [83, 116, 114, 105, 110, 103].as_slice()
        || name == [76, 105, 115, 116].as_slice()
        || name == [77, 97, 112].as_slice()
        || name == [70, 117, 110, 99, 116, 105, 111, 110].as_slice()
        || name == [70, 117, 116, 117, 114, 101].as_slice()
}

fn is_closed_class(class: &ClassNode) -> bool
    ensures { result ≡ spec.is_closed_class (Some class.now) }
{
    class.file == 0 && is_closed_name(class.name.as_slice())
}

fn is_closed_at(classes: &[ClassNode], class: u32) -> bool
    ensures { result ≡ spec.is_closed_class (slice_get classes.now class) }
{
    match at(classes, class as usize) {
        Some(class) => is_closed_class(class),
        None => false,
    }
}

impl Known<'_> {
    fn body_at(&self, class: u32) -> BodyFacts
        ensures { result ≡ spec.body_at self.now class }
    {
        match at(self.bodies.get(), class as usize) {
            Some(facts) => *facts,
            None => NO_BODY,
        }
    }

    fn is_bad_body(&self, class: u32, body: Option<u32>) -> bool
        ensures { result ≡ spec.is_bad_body self.now class body }
    {
        match body {
            Some(body) => {
                let facts = self.body_at(body);
                facts.asks_super
                    || (facts.holds_fields && is_above_with(self.classes.get(), class, body))
            }
            None => false,
        }
    }

    fn is_no_mixin(&self, class: u32, mixin: u32) -> bool
        ensures { result ≡ spec.is_no_mixin self.now class mixin }
    {
        let classes = self.classes.get();
        is_another(self.naming.object, superclass_of(classes, mixin))
            || self.body_at(mixin).constructs
            || self.is_bad_body(class, origin(classes, mixin))
    }

    /// Whether what a mixin names is a class that class may not mix in.
    pub fn is_bad_mixin(&self, class: u32, mixin: Option<u32>) -> bool
        ensures { result ≡ spec.is_bad_mixin self.now class mixin }
    {
        match mixin {
            Some(mixin) => self.is_no_mixin(class, mixin),
            None => false,
        }
    }

    /// Whether a supertype is a class that no file but the prelude names in heads.
    pub fn is_closed(&self, supertype: Option<u32>) -> bool
        ensures { result ≡ spec.is_closed self.now supertype }
    {
        match supertype {
            Some(class) => is_closed_at(self.classes.get(), class),
            None => false,
        }
    }

    /// Whether a class stands above itself.
    pub fn is_cycle(&self, class: u32) -> bool
        ensures { result ≡ spec.is_cycle self.now class }
    {
        match at(self.cycles.get(), class as usize) {
            Some(is_cycle) => *is_cycle,
            None => false,
        }
    }
}
