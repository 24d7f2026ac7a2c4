//! Ranks that fall on the way up show that no class stands above itself.
ghost use Rattle.std.specs.Prelude.{◌≡◌, true, IsTrue, slice_index_or, option_to_list};
ghost use Rattle.std.specs.List.{list_all};
ghost use Rattle.class_heads.specs.Ranks as spec;

use crate::nodes::ClassNode;
use library_scopes::reading::one_more;
use sqlite_items::{Items, at};
use std::alloc::{AllocError, Global};

/// The rank of a class that is being looked at.
const STARTED: u32 = 1;

/// A class on the way up, how many of its supertypes were looked at, and the highest rank among these.
#[derive(Clone, Copy)]
struct Step {
    class: u32,
    looked_at: usize,
    highest: u32,
}

/// What stands at a place among the supertypes of a class.
enum Place {
    Class(u32),
    Nothing,
    End,
}

fn or_nothing(class: Option<u32>) -> Place {
    match class {
        Some(class) => Place::Class(class),
        None => Place::Nothing,
    }
}

/// The superclass stands first, then the mixin, then the interfaces.
fn place_in(class: &ClassNode, place: usize) -> Place {
    match place {
        0 => or_nothing(class.superclass),
        1 => or_nothing(class.mixin),
        _ => match at(class.interfaces.as_slice(), place - 2) {
            Some(interface) => Place::Class(*interface),
            None => Place::End,
        },
    }
}

fn place_of(classes: &[ClassNode], class: u32, place: usize) -> Place {
    match at(classes, class as usize) {
        Some(class) => place_in(class, place),
        None => Place::End,
    }
}

#[derive(Drop)]
struct Ranking {
    /// By number; 0 where it is not known.
    ranks: Items<u32>,
    way: Items<Step>,
}

impl Ranking {
    fn set(&mut self, class: u32, rank: u32) {
        let class = class as usize;
        if class < self.ranks.len() {
            self.ranks.set(class, rank);
        }
    }

    /// The rank of a class; one that is not there has the least.
    fn rank(&self, class: u32) -> u32 {
        match self.ranks.get(class as usize) {
            Some(rank) => *rank,
            None => STARTED,
        }
    }

    fn begin(&mut self, class: u32) -> Result<(), AllocError> {
        self.set(class, STARTED);
        self.way.push(Step {
            class,
            looked_at: 0,
            highest: STARTED,
        })
    }

    fn past(&mut self, step: Step, rank: u32) -> Result<(), AllocError> {
        self.way.push(Step {
            class: step.class,
            looked_at: step.looked_at.saturating_add(1),
            highest: step.highest.max(rank),
        })
    }

    fn look(&mut self, classes: &[ClassNode], step: Step) -> Result<(), AllocError> {
        match place_of(classes, step.class, step.looked_at) {
            Place::Class(next) => {
                let rank = self.rank(next);
                if rank == 0 {
                    self.way.push(step)?;
                    self.begin(next)
                } else {
                    self.past(step, rank)
                }
            }
            Place::Nothing => self.past(step, STARTED),
            Place::End => {
                self.set(step.class, step.highest.saturating_add(1));
                Ok(())
            }
        }
    }

    fn rank_from(&mut self, classes: &[ClassNode], class: u32) -> Result<(), AllocError> {
        if self.rank(class) != 0 {
            return Ok(());
        }
        self.begin(class)?;
        for _turn in 0..usize::MAX {
            match self.way.pop() {
                Some(step) => self.look(classes, step)?,
                None => return Ok(()),
            }
        }
        Ok(())
    }
}

/// A rank for each class. They fall on the way up where no class stands above itself.
pub fn ranks(alloc: Global, classes: &[ClassNode]) -> Result<Items<u32>, AllocError> {
    let ranks = Vec::from_elem(alloc, 0, classes.len())?;
    let mut ranking = Ranking {
        ranks: Items::from_vec(ranks),
        way: Items::new(alloc),
    };
    let mut class = 0;
    for _ in 0..classes.len() {
        ranking.rank_from(classes, class)?;
        class = one_more(class)?;
    }
    let Ranking { ranks, way: _ } = ranking;
    Ok(ranks)
}

fn rank_at(ranks: &[u32], class: u32) -> u32
    ensures { result ≡ slice_index_or ranks.now class 0 }
{
    match at(ranks, class as usize) {
        Some(rank) => *rank,
        None => 0,
    }
}

fn is_lower(ranks: &[u32], rank: u32, class: u32) -> bool
    ensures { result ≡ spec.is_lower ranks.now rank class }
{
    rank_at(ranks, class) < rank
}

fn are_lower(ranks: &[u32], rank: u32, classes: &[u32]) -> bool
    ensures { result ≡ list_all (spec.is_lower ranks.now rank) classes.now }
{
    classes.iter().all(|class| is_lower(ranks, rank, *class))
}

fn is_lower_if_any(ranks: &[u32], rank: u32, class: Option<u32>) -> bool
    ensures { result ≡ list_all (spec.is_lower ranks.now rank) (option_to_list class) }
{
    match class {
        Some(class) => is_lower(ranks, rank, class),
        None => true,
    }
}

/// Whether all that a class names has lower ranks.
#[tactic(auto, unfolding(crate::specs::Ranks::falls_at), using(crate::proofs::Falling::all_of_three))]
fn falls_at(ranks: &[u32], rank: u32, class: &ClassNode) -> bool
    ensures { result ≡ spec.falls_at ranks.now rank class.now }
{
    is_lower_if_any(ranks, rank, class.superclass)
        && is_lower_if_any(ranks, rank, class.mixin)
        && are_lower(ranks, rank, class.interfaces.as_slice())
}

/// Whether all that any class names has a lower rank than it.
pub fn fall(classes: &[ClassNode], ranks: &[u32]) -> bool
    ensures { IsTrue result → spec.falls_from ranks.now 0 classes.now ≡ true }
{
    let mut number = 0u32;
    for class in classes {
        if !falls_at(ranks, rank_at(ranks, number), class) {
            return false;
        }
        number = match number.checked_add(1) {
            Some(number) => number,
            None => return false,
        };
    }
    true
}
