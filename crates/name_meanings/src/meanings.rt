//! What names mean in a program.
ghost use Rattle.std.specs.Prelude.{◌≡◌, IfOk};
ghost use Rattle.class_heads.specs.Bodies as bodies;
ghost use Rattle.class_heads.specs.Sources.{class_number};
ghost use Rattle.class_members.specs.Members as members_spec;
ghost use Rattle.class_members.specs.Owners.{AreOwners};
ghost use Rattle.library_scopes.specs.Lookups as lookups;
ghost use Rattle.library_scopes.specs.Uses as uses;
ghost use Rattle.library_scopes.specs.declared.named.Side.TheVariants as side_variants;
ghost use Rattle.name_meanings.specs.Meanings as spec;
ghost use Rattle.name_meanings.specs.Own as own_spec;

use crate::around::{has_this, is_type_parameter};
use crate::imports::{behind_on, by_prelude};
use crate::meaning::{Meaning, NameMeaning};
use crate::own::{OwnMember, is_seen};
use crate::tables::{Facts, OwnNames, all_facts, all_names, own_by_class};
use class_heads::heads::class_named;
use class_heads::written::numbers;
use class_members::members::MemberNode;
use class_members::owners::Owners;
use class_members::program::ProgramClasses;
use code_units::{NumberList, Text};
use dart_grammar::declarations::Class;
use dart_sites::Surroundings;
use dart_sites::sites::Receiver;
use dart_sites::surroundings::Owner;
use library_scopes::libraries::Library;
use library_scopes::named::Side;
use library_scopes::{Named, Scopes};
use sqlite_items::{Items, at};
use std::alloc::{AllocError, Global};
use std::marker::Model;

/// What names mean in a program; seen as its files and what names mean in its libraries.
#[derive(Drop)]
pub struct Meanings<'a> {
    program: ProgramClasses<'a>,
    class_numbers: NumberList,
    names: Items<OwnNames>,
    facts: Items<Facts>,
}

impl<'a> Model for Meanings<'a> {
    ghost use Rattle.std.specs.Coded.{codes};
    ghost use Rattle.dart_program.specs.contracts.files.SourceFile as file_row;
    ghost use Rattle.library_scopes.specs.contracts.libraries.Scopes as scopes_row;
    ghost use Rattle.class_heads.specs.Sources.{Sources};
    ghost use Rattle.name_meanings.specs.Tables.{AreNames};

    ghost Value = { Sources };

    ghost coded = { Prim.hlevel (codes, file_row.the_row.coded, scopes_row.the_row.coded) };

    ghost view = { λ meanings. meanings.program };

    ghost invariant = { λ meanings. AreNames meanings.program meanings.class_numbers meanings.names meanings.facts };
}

fn of_this(around: &Surroundings<'_, '_>) -> Meaning
    ensures { result ≡ spec.of_this around.now }
{
    if has_this(around) {
        Meaning::OfObject
    } else {
        Meaning::Nothing
    }
}

fn named(named: Option<Named>) -> Meaning
    ensures { result ≡ spec.named named }
{
    match named {
        Some(named) => Meaning::Named(named),
        None => Meaning::Nothing,
    }
}

fn other(side: Side) -> Side
    ensures { result ≡ spec.other side }
{
    match side {
        Side::Value => Side::Setting,
        Side::Setting => Side::Value,
    }
}

fn static_meaning(member: OwnMember) -> Meaning
    ensures { result ≡ spec.static_meaning member }
{
    if member.lacks_body {
        Meaning::Nothing
    } else {
        Meaning::Static(member.number)
    }
}

fn member_meaning(around: &Surroundings<'_, '_>, own: OwnMember) -> Meaning
    ensures { result ≡ spec.member_meaning around.now own }
{
    if own.is_static {
        static_meaning(own)
    } else {
        of_this(around)
    }
}

fn other_meaning(around: &Surroundings<'_, '_>, own: OwnMember) -> Meaning
    ensures { result ≡ spec.other_meaning around.now own }
{
    if own.is_static {
        Meaning::Nothing
    } else {
        of_this(around)
    }
}

fn in_class(
    around: &Surroundings<'_, '_>,
    own: Option<OwnMember>,
    on_other: Option<OwnMember>,
) -> Option<Meaning>
    ensures { result ≡ spec.in_class around.now own on_other }
{
    match own {
        Some(own) => Some(member_meaning(around, own)),
        None => Some(other_meaning(around, on_other?)),
    }
}

fn is_own(name: &[u16], library: &Library) -> bool
    ensures { result ≡ uses.is_own name.now library.now }
{
    library.own(Side::Value, name).is_some() || library.own(Side::Setting, name).is_some()
}

fn static_of(own: Option<OwnMember>) -> Meaning
    ensures { result ≡ spec.static_of own }
{
    match own {
        Some(own) if own.is_static => static_meaning(own),
        _ => Meaning::Nothing,
    }
}

/// What names are selected from that are no object's, if this is that.
fn only_space(named: Option<Named>) -> Option<Named>
    ensures { result ≡ spec.only_space named }
{
    match named {
        Some(Named::Class(class)) => Some(Named::Class(class)),
        Some(Named::Prefix(prefix)) => Some(Named::Prefix(prefix)),
        _ => None,
    }
}

fn named_by(meaning: &NameMeaning<'_, '_>) -> Option<Named>
    ensures { result ≡ spec.named_by meaning.now }
{
    match meaning {
        NameMeaning::Beyond(Meaning::Named(named)) => Some(*named),
        _ => None,
    }
}

// `loadLibrary`
const LOAD_LIBRARY: [u16; 11] = [108, 111, 97, 100, 76, 105, 98, 114, 97, 114, 121];

fn is_load_library(side: Side, name: &[u16]) -> bool
    ensures { result ≡ spec.is_load_library side name.now }
{
    match side {
        Side::Value => name == LOAD_LIBRARY.as_slice(),
        Side::Setting => false,
    }
}

impl<'a> Meanings<'a> {
    /// What names mean in a program with these members.
    pub fn new(
        alloc: Global,
        program: ProgramClasses<'a>,
        members: &[MemberNode],
        owners: &Owners,
    ) -> Result<Meanings<'a>, AllocError>
        requires members { members.now ≡ members_spec.members program }
        requires owners { AreOwners program owners.now }
        ensures { IfOk result (λ meanings. meanings ≡ program.entry) }
    {
        let class_numbers = numbers(alloc, program.written())?;
        let names = all_names(alloc, &program, members, owners)?;
        let facts = all_facts(alloc, &program, members)?;
        Ok(Meanings {
            program,
            class_numbers,
            names,
            facts,
        })
    }

    /// What names mean in its libraries.
    pub fn scopes(&self) -> &'a Scopes
        ensures { result.now ≡ self.now.scopes }
    {
        self.program.scopes()
    }

    /// The number of a class by its number as it is written.
    #[tactic(auto, unfolding(class_heads::specs::Sources::class_number))]
    fn class_number(&self, written: u32) -> Option<u32>
        ensures { result ≡ class_number self.now written }
    {
        at(self.class_numbers.as_slice(), written as usize).copied()
    }

    fn class_of_name(&self, file: u32, name: &Text) -> Option<u32>
        ensures { result ≡ bodies.class_of_name self.now file name.now }
    {
        self.class_number(class_named(self.scopes().lookup(file, name)?)?)
    }

    /// The first member that a class declares itself under a name, for values or for what takes one, as a file sees it.
    #[tactic(auto, unfolding(crate::specs::Own::own_member))]
    pub fn own_member(&self, file: u32, class: u32, side: Side, name: &[u16]) -> Option<OwnMember>
        ensures { result ≡ own_spec.own_member self.now file class side name.now }
    {
        let node = at(self.program.classes(), class as usize)?;
        if is_seen(file, name, node) {
            own_by_class(
                self.names.as_slice(),
                self.facts.as_slice(),
                class,
                side,
                name,
            )
        } else {
            None
        }
    }

    fn of_class(
        &self,
        file: u32,
        around: &Surroundings<'_, '_>,
        side: Side,
        name: &[u16],
        class: Option<u32>,
    ) -> Option<Meaning>
        ensures { result ≡ spec.of_class self.now file around.now side name.now class }
    {
        let class = class?;
        in_class(
            around,
            self.own_member(file, class, side, name),
            self.own_member(file, class, other(side), name),
        )
    }

    fn in_library(
        &self,
        around: &Surroundings<'_, '_>,
        side: Side,
        name: &[u16],
        library: &Library,
    ) -> Meaning
        ensures { result ≡ spec.in_library self.now around.now side name.now library.now }
    {
        if is_own(name, library) {
            return named(library.own(side, name));
        }
        let scopes = self.scopes();
        let imports = library.imports.as_slice();
        let asked = scopes.first_given(false, side, name, None, imports);
        let beside = scopes.first_given(false, other(side), name, None, imports);
        if asked.is_some() || beside.is_some() {
            return named(asked);
        }
        let asked = by_prelude(scopes, side, name, imports);
        let beside = by_prelude(scopes, other(side), name, imports);
        if asked.is_some() || beside.is_some() {
            return named(asked);
        }
        of_this(around)
    }

    #[tactic(auto, unfolding(crate::specs::Meanings::of_library))]
    fn of_library(
        &self,
        file: u32,
        around: &Surroundings<'_, '_>,
        side: Side,
        name: &[u16],
    ) -> Meaning
        ensures { result ≡ spec.of_library self.now file around.now side name.now }
    {
        match self.scopes().library(file) {
            Some(library) => self.in_library(around, side, name, library),
            None => Meaning::Nothing,
        }
    }

    fn behind_members(
        &self,
        file: u32,
        around: &Surroundings<'_, '_>,
        side: Side,
        name: &[u16],
        class: &Class,
        own: Option<Meaning>,
    ) -> Meaning
        ensures { result ≡ spec.behind_members self.now file around.now side name.now class.now own }
    {
        match own {
            Some(own) => own,
            None if is_type_parameter(name, class) => Meaning::TypeParameter,
            None => self.of_library(file, around, side, name),
        }
    }

    fn of_owner(
        &self,
        file: u32,
        around: &Surroundings<'_, '_>,
        side: Side,
        name: &[u16],
    ) -> Meaning
        ensures { result ≡ spec.of_owner self.now file around.now side name.now around.now.class }
    {
        match around.class.get() {
            Some(Owner::Class(class)) => {
                let class = class.get();
                let number = self.class_of_name(file, &class.name.text);
                let own = self.of_class(file, around, side, name, number);
                self.behind_members(file, around, side, name, class, own)
            }
            _ => self.of_library(file, around, side, name),
        }
    }

    /// What a name that stands alone means in a file. Takes no memory, and expected time in the scopes around and in the
    /// imports of the file, however many names these have.
    #[tactic(auto, unfolding(crate::specs::Meanings::meaning))]
    pub fn meaning<'s, 't>(
        &self,
        file: u32,
        around: &Surroundings<'s, 't>,
        side: Side,
        name: &[u16],
    ) -> NameMeaning<'s, 't>
        ensures { result ≡ spec.meaning self.now file around.now side name.now }
    {
        match around.scopes.get().find(name) {
            Some(found) => NameMeaning::Local(found),
            None => NameMeaning::Beyond(self.of_owner(file, around, side, name)),
        }
    }

    fn space_behind(&self, named: Option<Named>, name: &[u16]) -> Option<Named>
        ensures { result ≡ spec.space_behind self.now named name.now }
    {
        match named {
            Some(Named::Prefix(prefix)) => {
                only_space(behind_on(self.scopes(), prefix, Side::Value, name))
            }
            _ => None,
        }
    }

    /// What a library declares, or the prefix, that a name stands for that stands alone; none where it means anything else.
    pub fn named_alone(
        &self,
        file: u32,
        around: &Surroundings<'_, '_>,
        name: &[u16],
    ) -> Option<Named>
        ensures { result ≡ spec.named_by (spec.meaning self.now file around.now side_variants.Value name.now) }
    {
        let meaning = self.meaning(file, around, Side::Value, name);
        named_by(&meaning)
    }

    /// What stands before a dot, where it is a class or a prefix.
    #[tactic(auto, unfolding(crate::specs::Meanings::space))]
    pub fn space(
        &self,
        file: u32,
        around: &Surroundings<'_, '_>,
        receiver: &Receiver<'_>,
    ) -> Option<Named>
        ensures { result ≡ spec.space self.now file around.now receiver.now }
    {
        match receiver {
            Receiver::Named(name) => {
                only_space(self.named_alone(file, around, name.get().text.as_slice()))
            }
            Receiver::Dotted(name, behind) => {
                let named = self.named_alone(file, around, name.get().text.as_slice());
                self.space_behind(named, behind.get().text.as_slice())
            }
            _ => None,
        }
    }

    fn behind_prefix(&self, side: Side, name: &[u16], prefix: u32) -> Meaning
        ensures { result ≡ spec.behind_prefix self.now side name.now prefix (lookups.deferred self.now.scopes prefix) }
    {
        let scopes = self.scopes();
        match scopes.deferred(prefix) {
            Some(import) if is_load_library(side, name) => Meaning::Load(import),
            _ => named(behind_on(scopes, prefix, side, name)),
        }
    }

    fn in_class_named(&self, file: u32, side: Side, name: &[u16], class: Option<u32>) -> Meaning
        ensures { result ≡ spec.in_class_named self.now file side name.now class }
    {
        match class {
            Some(class) => static_of(self.own_member(file, class, side, name)),
            None => Meaning::Nothing,
        }
    }

    /// What a name behind a dot means in a file.
    #[tactic(auto, unfolding(crate::specs::Meanings::selected))]
    pub fn selected(
        &self,
        file: u32,
        around: &Surroundings<'_, '_>,
        receiver: &Receiver<'_>,
        side: Side,
        name: &[u16],
    ) -> Meaning
        ensures { result ≡ spec.selected self.now file around.now receiver.now side name.now }
    {
        match self.space(file, around, receiver) {
            Some(Named::Prefix(prefix)) => self.behind_prefix(side, name, prefix),
            Some(Named::Class(class)) => {
                self.in_class_named(file, side, name, self.class_number(class))
            }
            _ => Meaning::OfObject,
        }
    }
}
