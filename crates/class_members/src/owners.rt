//! Which members a class has, and which ones stand outside classes.
ghost use Rattle.std.specs.Prelude.{◌≡◌, [], replicate, slice_get, IfOk, OnOk};
ghost use Rattle.class_members.specs.Members.{members};
ghost use Rattle.class_members.specs.Owners.{numbers_from, is_outside, AreOwners};
ghost use Rattle.class_members.specs.Steps as step;

use crate::members::MemberNode;
use crate::program::ProgramClasses;
use code_units::NumberList;
use library_scopes::reading::one_more;
use sqlite_items::{Items, at};
use std::alloc::{AllocError, Global};

/// Members by whose they are. In each list their numbers stand from the least on.
#[derive(Drop)]
pub struct Owners {
    /// Of each class those that it has, by the number of the class.
    pub of_classes: Items<NumberList>,
    /// Those outside classes.
    pub outside: NumberList,
}

fn no_members(alloc: Global, count: usize) -> Result<Vec<NumberList>, AllocError>
    ensures { IfOk result (λ lists. lists.items ≡ replicate count []) }
{
    let mut lists = Vec::new(alloc);
    for _done in 0..count {
        lists.push(NumberList::new(alloc))?;
    }
    Ok(lists)
}

/// Adds a number to the list at a place, if there is one.
fn push_at(lists: &mut Vec<NumberList>, place: usize, number: u32) -> Result<(), AllocError>
    ensures { OnOk result (lists.new.items ≡ step.with_number_at place number lists.old.items) }
{
    if place < lists.len() {
        lists[place].push(number)
    } else {
        Ok(())
    }
}

fn push_own(lists: &mut Vec<NumberList>, class: Option<u32>, number: u32) -> Result<(), AllocError>
    ensures { OnOk result (lists.new.items ≡ step.with_number class number lists.old.items) }
{
    match class {
        Some(class) => push_at(lists, class as usize, number),
        None => Ok(()),
    }
}

fn own_members(
    alloc: Global,
    classes: usize,
    members: &[MemberNode],
) -> Result<Vec<NumberList>, AllocError>
    ensures { IfOk result (λ lists. lists.items ≡ step.with_numbers 0 (replicate classes []) members.now) }
{
    let mut lists = no_members(alloc, classes)?;
    let mut number = 0;
    for member in members {
        push_own(&mut lists, member.class, number)?;
        number = one_more(number)?;
    }
    Ok(lists)
}

fn push_outside(numbers: &mut NumberList, class: Option<u32>, number: u32) -> Result<(), AllocError>
    ensures { OnOk result (numbers.new ≡ step.with_outside class number numbers.old) }
{
    match class {
        Some(_) => Ok(()),
        None => numbers.push(number),
    }
}

#[tactic(auto, using(crate::proofs::Owned::outside_step))]
fn outside_members(alloc: Global, members: &[MemberNode]) -> Result<NumberList, AllocError>
    ensures { IfOk result (λ numbers. numbers ≡ numbers_from 0 is_outside members.now) }
{
    let mut numbers = NumberList::new(alloc);
    let mut number = 0;
    for member in members {
        push_outside(&mut numbers, member.class, number)?;
        number = one_more(number)?;
    }
    Ok(numbers)
}

/// The members of a program by whose they are. Takes time linear in the classes and the members.
pub fn find_owners(
    alloc: Global,
    program: &ProgramClasses<'_>,
    all: &[MemberNode],
) -> Result<Owners, AllocError>
    requires { all.now ≡ members program.now }
    ensures { IfOk result (AreOwners program.now) }
{
    let lists = own_members(alloc, program.classes().len(), all)?;
    Ok(Owners {
        of_classes: Items::from_vec(lists),
        outside: outside_members(alloc, all)?,
    })
}

impl Owners {
    /// The number of a member outside classes, by its number among those that names stand for.
    pub fn member_number(&self, number: u32) -> Option<u32>
        ensures { result ≡ slice_get self.now.outside number }
    {
        self.outside.as_slice().get(number as usize).copied()
    }
}
