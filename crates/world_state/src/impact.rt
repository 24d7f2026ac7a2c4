//! What members give.
ghost use Rattle.std.specs.Prelude.{◌≡◌, IfOk};

use crate::fact::FactList;
use crate::reads::ReadList;
use std::alloc::AllocError;

/// The facts that a member gives, and the reads that they were computed from.
#[derive(Drop)]
pub struct Impact {
    pub member: u32,
    pub reads: ReadList,
    pub facts: FactList,
}

impl Impact {
    /// An equal impact.
    pub fn copy(&self) -> Result<Impact, AllocError>
        ensures { IfOk result (λ copy. copy ≡ self.now) }
    {
        Ok(Impact {
            member: self.member,
            reads: self.reads.copy()?,
            facts: self.facts.copy()?,
        })
    }
}
