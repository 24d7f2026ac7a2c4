//! The first broken rule of a file.
ghost use Rattle.std.specs.Prelude.{◌≡◌, IfOk};
ghost use Rattle.dart_program.specs.First.{IsFirstOrNone};
ghost use Rattle.body_rules.specs.Rules.{IsBroken};
ghost use Rattle.body_rules.specs.Search.{searched};

use crate::faults::with_faults;
use dart_grammar::declarations::FileTree;
use dart_program::Refusal;
use dart_sites::{Site, Surroundings, Visitor, visit_file};
use std::alloc::{AllocError, Global};

/// The number of a file, and the first broken rule of its sites so far.
#[derive(Drop)]
pub struct Search {
    pub number: u32,
    pub first: Option<Refusal>,
}

impl Visitor for Search {
    ghost step = { searched };

    fn visit(
        &mut self,
        surroundings: &Surroundings<'_, '_>,
        site: &Site<'_>,
    ) -> Result<(), AllocError> {
        self.first = with_faults(self.first, self.number, surroundings, site);
        Ok(())
    }
}

/// The first of the rules of this crate that a file breaks, by place and then by the number of the rule; none exactly where it
/// breaks none of them.
#[tactic(auto, using(crate::proofs::Laws::first_in_file_is))]
pub fn first_in_file(
    alloc: Global,
    number: u32,
    tree: &FileTree,
) -> Result<Option<Refusal>, AllocError>
    ensures { IfOk result (IsFirstOrNone (IsBroken number tree.now)) }
{
    let search = Search {
        number,
        first: None,
    };
    let search = visit_file(alloc, tree, search)?;
    Ok(search.first)
}
