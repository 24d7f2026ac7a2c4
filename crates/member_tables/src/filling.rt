//! Members put into the table of a class.
ghost use Rattle.std.specs.Prelude.{◌≡◌, ◌≤◌, ◌^◌, [], ◌∷◌, length, IfOk};
ghost use Rattle.persistent_maps.specs.Gives.{Gives};
ghost use Rattle.persistent_maps.specs.Keeps.{Keeps};
ghost use Rattle.persistent_maps.specs.Maps.{bits_of, value_of, IsMapOf};
ghost use Rattle.selectors.specs.Selectors as selecting;
ghost use Rattle.class_members.specs.Members as spec;
ghost use Rattle.member_tables.specs.Keys.{keys_at, keys_in};
ghost use Rattle.member_tables.specs.Filling.{with_member, with_members, AreKeys};

use crate::bodies::keys_of_member;
use crate::keys::Keys;
use class_members::members::MemberNode;
use class_members::program::ProgramClasses;
use persistent_maps::{Map, Maps};
use selectors::Selectors;
use sqlite_items::at;
use std::alloc::AllocError;

/// The table that has a member at a key too, if there is one.
fn put_at(maps: &mut Maps, table: Map, key: Option<u32>, member: u32) -> Result<Map, AllocError>
    requires is_map { IsMapOf maps.old table }
    requires are_keys { AreKeys maps.old (key ∷ []) }
    ensures keeps { Keeps maps.old maps.new }
    ensures made { IfOk result (λ made. Gives maps.new made (with_member (key ∷ []) member (value_of maps.old table))) }
{
    match key {
        Some(key) => maps.with(table, key, member),
        None => Ok(table),
    }
}

/// The table that has a member at each of its keys too.
fn put_at_each(maps: &mut Maps, table: Map, keys: Keys, member: u32) -> Result<Map, AllocError>
    requires is_map { IsMapOf maps.old table }
    requires are_keys { AreKeys maps.old (keys_in keys) }
    ensures keeps { Keeps maps.old maps.new }
    ensures made { IfOk result (λ made. Gives maps.new made (with_member (keys_in keys) member (value_of maps.old table))) }
{
    match keys {
        Keys::Nothing => Ok(table),
        Keys::One(key) => put_at(maps, table, key, member),
        Keys::Two(first, second) => put_at_both(maps, table, first, second, member),
    }
}

fn put_at_both(
    maps: &mut Maps,
    table: Map,
    first: Option<u32>,
    second: Option<u32>,
    member: u32,
) -> Result<Map, AllocError>
    requires is_map { IsMapOf maps.old table }
    requires are_keys { AreKeys maps.old (first ∷ second ∷ []) }
    ensures keeps { Keeps maps.old maps.new }
    ensures made { IfOk result (λ made. Gives maps.new made (with_member (first ∷ second ∷ []) member (value_of maps.old table))) }
{
    let table = put_at(maps, table, first, member)?;
    put_at(maps, table, second, member)
}

/// The table that has a member under each name under which it is found too.
fn put_member(
    maps: &mut Maps,
    table: Map,
    program: &ProgramClasses<'_>,
    members: &[MemberNode],
    selectors: &Selectors,
    number: u32,
) -> Result<Map, AllocError>
    requires is_map { IsMapOf maps.old table }
    requires enough { length selectors.now ≤ 2 ^ bits_of maps.old }
    requires members { members.now ≡ spec.members program.now }
    requires selectors { selectors.now ≡ selecting.selectors program.now.files }
    ensures keeps { Keeps maps.old maps.new }
    ensures made { IfOk result (λ made. Gives maps.new made (with_member (keys_at program.now number) number (value_of maps.old table))) }
{
    match at(members, number as usize) {
        Some(member) => {
            let keys = keys_of_member(program, selectors, member)?;
            put_at_each(maps, table, keys, number)
        }
        None => Ok(table),
    }
}

/// The table that has these members too, each under its names, and of those of one name the first one. They are put in from
/// the last one on.
pub fn put_members(
    maps: &mut Maps,
    table: Map,
    program: &ProgramClasses<'_>,
    members: &[MemberNode],
    selectors: &Selectors,
    numbers: &[u32],
) -> Result<Map, AllocError>
    requires is_map { IsMapOf maps.old table }
    requires enough { length selectors.now ≤ 2 ^ bits_of maps.old }
    requires members { members.now ≡ spec.members program.now }
    requires selectors { selectors.now ≡ selecting.selectors program.now.files }
    ensures keeps { Keeps maps.old maps.new }
    ensures made { IfOk result (λ made. Gives maps.new made (with_members program.now numbers.now (value_of maps.old table))) }
{
    let mut made = table;
    let mut left = numbers;
    'left: while let Some((last, before)) = left.split_last() {
        made = put_member(maps, made, program, members, selectors, *last)?;
        left = before;
    }
    Ok(made)
}
