//! For each class the set of those that it is a subtype of.
ghost use Rattle.std.specs.Prelude.{◌≡◌, ◌<◌, ◌^◌, [], ◌∷◌, option_to_list, IfOk};
ghost use Rattle.class_heads.specs.Supertypes.{supertypes_of};
ghost use Rattle.persistent_maps.specs.Maps.{bits_of, IsMapOf};
ghost use Rattle.supertypes.specs.Joined as spec;
ghost use Rattle.supertypes.specs.Sets.{has, AreSupertypes};
ghost use Rattle.supertypes.specs.Upward.{IsUpward};

use crate::climb::class_count;
use class_heads::nodes::ClassNode;
use persistent_maps::{Map, Maps};
use sqlite_items::{Items, at};
use std::alloc::{AllocError, Global};

/// For each class, by its number, the set of the classes that it is a subtype of. Sets share what is alike in them.
#[derive(Drop)]
pub struct Supertypes {
    maps: Maps,
    sets: Items<Map>,
}

impl Supertypes {
    /// The sets of these classes, in whose order what a class names stands before it. The set of a class is made from those
    /// of what it names: that of its superclass alone is shared but for the way to the class. Takes time and memory for each
    /// class in the bits of numbers of classes, and in what its mixin and its interfaces add to the set of its superclass.
    pub fn new(
        alloc: Global,
        classes: &[ClassNode],
        order: &[u32],
    ) -> Result<Supertypes, AllocError>
        requires upward { IsUpward classes.now order.now }
        ensures { IfOk result (AreSupertypes classes.now) }
    {
        let mut table = Supertypes::empty(alloc, classes)?;
        for class in order {
            let set = table.set_of(classes, *class)?;
            table.sets.set(*class as usize, set);
        }
        Ok(table)
    }

    /// Whether a class is the other one, or has it as superclass, mixin or interface through any number of steps. Takes no
    /// memory, and time in the bits of numbers of classes.
    pub fn is_sub(&self, class: u32, other: u32) -> bool
        ensures { result ≡ has self.now class other }
    {
        match self.sets.get(class as usize) {
            Some(set) => self.maps.get(*set, other).is_some(),
            None => false,
        }
    }

    /// An empty set for each class.
    fn empty(alloc: Global, classes: &[ClassNode]) -> Result<Supertypes, AllocError>
        ensures { IfOk result (spec.IsTable classes.now) }
    {
        let count = class_count(classes)?;
        let sets = Vec::from_elem(alloc, Map::empty(), classes.len())?;
        Ok(Supertypes {
            maps: Maps::for_keys(alloc, count),
            sets: Items::from_vec(sets),
        })
    }

    /// What a set has, and that of a class.
    fn add(&mut self, set: Map, class: u32) -> Result<Map, AllocError>
        requires are_maps { spec.AreMaps self.old }
        requires is_map { IsMapOf self.old.maps set }
        ensures keeps { spec.KeepsSets self.old self.new }
        ensures adds { IfOk result (λ made. spec.HasAlso self.old self.new set made (class ∷ [])) }
    {
        let other = match self.sets.get(class as usize) {
            Some(other) => *other,
            None => return Ok(set),
        };
        self.maps.union(set, other)
    }

    fn add_if_any(&mut self, set: Map, class: Option<u32>) -> Result<Map, AllocError>
        requires are_maps { spec.AreMaps self.old }
        requires is_map { IsMapOf self.old.maps set }
        ensures keeps { spec.KeepsSets self.old self.new }
        ensures adds { IfOk result (λ made. spec.HasAlso self.old self.new set made (option_to_list class)) }
    {
        match class {
            Some(class) => self.add(set, class),
            None => Ok(set),
        }
    }

    fn add_all(&mut self, set: Map, classes: &[u32]) -> Result<Map, AllocError>
        requires are_maps { spec.AreMaps self.old }
        requires is_map { IsMapOf self.old.maps set }
        ensures keeps { spec.KeepsSets self.old self.new }
        ensures adds { IfOk result (λ made. spec.HasAlso self.old self.new set made classes.now) }
    {
        let mut made = set;
        for class in classes {
            made = self.add(made, *class)?;
        }
        Ok(made)
    }

    /// What the sets of those have that a class names in its head.
    #[tactic(auto, unfolding(class_heads::specs::Supertypes::supertypes_of))]
    fn above(&mut self, classes: &[ClassNode], class: u32) -> Result<Map, AllocError>
        requires are_maps { spec.AreMaps self.old }
        ensures keeps { spec.KeepsSets self.old self.new }
        ensures adds { IfOk result (λ made. spec.IsUnionOf self.old self.new made (supertypes_of classes.now class)) }
    {
        let none = Map::empty();
        match at(classes, class as usize) {
            Some(class) => {
                let first = self.add_if_any(none, class.superclass)?;
                let second = self.add_if_any(first, class.mixin)?;
                self.add_all(second, class.interfaces.as_slice())
            }
            None => Ok(none),
        }
    }

    /// The set of a class, where those of what it names are there.
    fn set_of(&mut self, classes: &[ClassNode], class: u32) -> Result<Map, AllocError>
        requires are_maps { spec.AreMaps self.old }
        requires is_key { class < 2 ^ bits_of self.old.maps }
        ensures keeps { spec.KeepsSets self.old self.new }
        ensures made { IfOk result (spec.IsSetOf classes.now self.old self.new class) }
    {
        let above = self.above(classes, class)?;
        self.maps.with(above, class, 0)
    }
}
