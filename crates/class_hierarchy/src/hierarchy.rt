//! Classes and members by number, and look-ups.
ghost use Rattle.std.specs.Prelude.{◌≡◌, length, map, option_map, slice_get};
ghost use Rattle.std.specs.Option.{option_copied};
ghost use Rattle.selectors.specs.Selectors.{number_of};
ghost use Rattle.supertypes.specs.Sets.{has};
ghost use Rattle.member_tables.specs.Tables.{found};

use class_heads::nodes::ClassNode;
use class_members::members::MemberNode;
use class_members::owners::Owners;
use code_units::{NumberList, Text};
use member_tables::MemberTables;
use selectors::Selectors;
use sqlite_items::Items;
use supertypes::supertypes::Supertypes;

/// The classes of a program and their members, by number.
#[derive(Drop)]
pub struct Hierarchy {
    /// The classes: the name, the file, the superclass, the mixin and the interfaces of each.
    pub classes: Items<ClassNode>,
    /// The number of each class that is written, as names stand for it.
    pub class_numbers: NumberList,
    /// The members: the file, the class and the place of the declaration of each.
    pub members: Items<MemberNode>,
    /// Which members each class has, and which ones stand outside classes.
    pub owners: Owners,
    /// The names by which members are looked for.
    pub selectors: Selectors,
    /// What each class is a subtype of.
    pub supertypes: Supertypes,
    /// The member that each class has under each name.
    pub tables: MemberTables,
}

impl Hierarchy {
    /// The class of this number; none where there are no more.
    pub fn class(&self, class: u32) -> Option<&ClassNode>
        ensures { option_copied result ≡ slice_get self.now.classes class }
    {
        self.classes.as_slice().get(class as usize)
    }

    /// The member of this number; none where there are no more.
    pub fn member(&self, member: u32) -> Option<&MemberNode>
        ensures { option_copied result ≡ slice_get self.now.members member }
    {
        self.members.as_slice().get(member as usize)
    }

    /// The numbers of the members of a class, from the least on; none for what is no class.
    pub fn own_members(&self, class: u32) -> Option<&NumberList>
        ensures { option_copied result ≡ slice_get self.now.owners.of_classes class }
    {
        self.owners.of_classes.as_slice().get(class as usize)
    }

    /// The number of a name as the file sees it, that of a setter being spelled with `=` behind it; none exactly where no
    /// declaration and no expression uses it.
    pub fn selector(&self, file: u32, name: &Text) -> Option<u32>
        ensures { result ≡ number_of file name.now self.now.selectors }
    {
        self.selectors.number(file, name.as_slice())
    }

    /// The member that the class has under the selector of that number: the first one from the class upwards that is not
    /// static and has a body. A field is found under its name and, unless it is final, as a setter.
    pub fn find(&self, class: u32, selector: u32) -> Option<u32>
        ensures { result ≡ found self.now.tables class selector }
    {
        self.tables.find(class, selector)
    }

    /// Whether the class is the other one, or has it above itself.
    pub fn is_sub(&self, class: u32, other: u32) -> bool
        ensures { result ≡ has self.now.supertypes class other }
    {
        self.supertypes.is_sub(class, other)
    }

    /// The number of a class by its number as it is written; none where there are no more.
    pub fn class_number(&self, written: u32) -> Option<u32>
        ensures { result ≡ slice_get self.now.class_numbers written }
    {
        self.class_numbers.as_slice().get(written as usize).copied()
    }

    /// The number of a member outside classes by its number as it is written; none where there are no more.
    pub fn member_number(&self, written: u32) -> Option<u32>
        ensures { result ≡ slice_get self.now.owners.outside written }
    {
        self.owners.member_number(written)
    }
}
