//! The tables of all classes.
ghost use Rattle.std.specs.Prelude.{◌≡◌, ◌≤◌, ◌^◌, length, IfOk};
ghost use Rattle.persistent_maps.specs.Gives.{Gives};
ghost use Rattle.persistent_maps.specs.Maps.{bits_of};
ghost use Rattle.selectors.specs.Selectors as selecting;
ghost use Rattle.class_heads.specs.Sources.{classes_in};
ghost use Rattle.class_members.specs.Members as spec;
ghost use Rattle.class_members.specs.Owners.{AreOwners};
ghost use Rattle.supertypes.specs.Upward.{IsUpward};
ghost use Rattle.member_tables.specs.Filling.{found_above, listed_for, AreMaps, HasTables, IsTableOf, KeepsTables};
ghost use Rattle.member_tables.specs.Tables.{found, AreTables};

use crate::filling::put_members;
use crate::origins::find_origins;
use class_heads::origins::superclass_of;
use class_members::members::MemberNode;
use class_members::owners::Owners;
use class_members::program::ProgramClasses;
use persistent_maps::{Map, Maps};
use selectors::Selectors;
use sqlite_items::{Items, at};
use std::alloc::{AllocError, Global};

/// The members that each class has under the names by which they are looked for, by the numbers of classes and of selectors.
/// The tables of classes share what is alike in them.
#[derive(Drop)]
pub struct MemberTables {
    maps: Maps,
    tables: Items<Map>,
}

/// How many selectors there are. There is no room for more than 2^32 - 1.
fn selector_count(selectors: &Selectors) -> Result<u32, AllocError>
    ensures { IfOk result (λ count. count ≡ length selectors.now) }
{
    u32::try_from(selectors.len()).map_err(|_| AllocError)
}

/// The members of a class.
fn members_of(owners: &Owners, class: Option<u32>) -> &[u32]
    ensures { result.now ≡ listed_for owners.now class }
{
    let Some(class) = class else {
        return &[];
    };
    match owners.of_classes.get(class as usize) {
        Some(members) => members.as_slice(),
        None => &[],
    }
}

impl MemberTables {
    /// The tables of the classes of a program, in whose order what a class names stands before it. The table of a class is
    /// made from that of its superclass: both share all but the ways to the members of its body, which are those of its
    /// mixin where it has one. Takes time and memory for each class in the members of its body.
    pub fn new(
        alloc: Global,
        program: &ProgramClasses<'_>,
        members: &[MemberNode],
        owners: &Owners,
        selectors: &Selectors,
        order: &[u32],
    ) -> Result<MemberTables, AllocError>
        requires members { members.now ≡ spec.members program.now }
        requires owners { AreOwners program.now owners.now }
        requires selectors { selectors.now ≡ selecting.selectors program.now.files }
        requires upward { IsUpward (classes_in program.now) order.now }
        ensures { IfOk result (AreTables program.now) }
    {
        let origins = find_origins(alloc, program, order)?;
        let mut made = MemberTables::empty(alloc, program, selectors)?;
        for class in order {
            let body = at(origins.as_slice(), *class as usize).copied();
            let own = members_of(owners, body);
            let table = made.table_of(program, members, selectors, own, *class)?;
            made.tables.set(*class as usize, table);
        }
        Ok(made)
    }

    /// The number of the first member from a class upwards that is found under the name of this selector. None exactly where
    /// there is none, and for what is no class or no selector. Takes no memory, and time in the bits of numbers of selectors.
    pub fn find(&self, class: u32, selector: u32) -> Option<u32>
        ensures { result ≡ found self.now class selector }
    {
        let table = self.tables.get(class as usize)?;
        self.maps.get(*table, selector)
    }

    /// An empty table for each class.
    fn empty(
        alloc: Global,
        program: &ProgramClasses<'_>,
        selectors: &Selectors,
    ) -> Result<MemberTables, AllocError>
        requires selectors { selectors.now ≡ selecting.selectors program.now.files }
        ensures { IfOk result (HasTables program.now) }
    {
        let count = selector_count(selectors)?;
        let tables = Vec::from_elem(alloc, Map::empty(), program.classes().len())?;
        Ok(MemberTables {
            maps: Maps::for_keys(alloc, count),
            tables: Items::from_vec(tables),
        })
    }

    /// The table of the superclass of a class.
    fn above(&self, program: &ProgramClasses<'_>, class: u32) -> Map
        requires are_maps { AreMaps self.now }
        ensures { Gives self.now.maps result (found_above program.now self.now class) }
    {
        let Some(superclass) = superclass_of(program.classes(), class) else {
            return Map::empty();
        };
        match self.tables.get(superclass as usize) {
            Some(table) => *table,
            None => Map::empty(),
        }
    }

    /// The table of a class with these members of its own, where that of its superclass is there.
    fn table_of(
        &mut self,
        program: &ProgramClasses<'_>,
        members: &[MemberNode],
        selectors: &Selectors,
        own: &[u32],
        class: u32,
    ) -> Result<Map, AllocError>
        requires are_maps { AreMaps self.old }
        requires enough { length selectors.now ≤ 2 ^ bits_of self.old.maps }
        requires members { members.now ≡ spec.members program.now }
        requires selectors { selectors.now ≡ selecting.selectors program.now.files }
        ensures keeps { KeepsTables self.old self.new }
        ensures made { IfOk result (IsTableOf program.now own.now self.old self.new class) }
    {
        let above = self.above(program, class);
        put_members(&mut self.maps, above, program, members, selectors, own)
    }
}
