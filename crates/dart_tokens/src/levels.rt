//! What is open.
ghost use Rattle.std.specs.Prelude.{◌≡◌, ◌∷◌, [], ◌==◌, length, IfOk, OnOk, MatchOption};
ghost use Rattle.dart_syntax.specs.Tokens as tokens;
ghost use Rattle.dart_tokens.specs.Answers.{tail_of};

use dart_syntax::Level;
use std::alloc::{AllocError, Global};
use std::marker::Model;

/// What is open, seen as a list with the innermost first.
#[derive(Debug, Drop)]
pub struct Levels {
    items: Vec<Level>,
    alloc: Global,
}

impl Model for Levels {
    ghost use Rattle.std.specs.Prelude.{List, reverse};
    ghost use Rattle.dart_syntax.specs.declared.levels.Level.{Level};

    ghost Value = { List Level };

    ghost view = { λ levels. reverse levels.items.items };
}

impl Levels {
    /// Nothing is open.
    pub fn new(alloc: Global) -> Levels
        ensures { result ≡ [] }
    {
        Levels {
            items: Vec::new(alloc),
            alloc,
        }
    }

    /// Whether a text is open.
    pub fn in_text(&self) -> bool
        ensures { result ≡ tokens.in_text self.now }
    {
        !self.items.is_empty()
    }

    /// The innermost.
    #[tactic(auto, using(crate::proofs::Stacks::none_none))]
    pub fn top(&self) -> Option<Level>
        ensures { MatchOption result (self.now ≡ []) (λ level. self.now ≡ level ∷ tail_of self.now) }
    {
        self.items.last().copied()
    }

    /// Opens this within all that is open.
    #[tactic(auto, using(crate::proofs::Stacks::last_first))]
    pub fn push(&mut self, level: Level) -> Result<(), AllocError>
        ensures { OnOk result (self.new ≡ level ∷ self.old) }
    {
        self.items.push(level)?;
        Ok(())
    }

    /// Closes the innermost, if there is one.
    #[tactic(auto, using(crate::proofs::Stacks::popped))]
    pub fn close(&mut self)
        ensures { self.new ≡ tail_of self.old }
    {
        let _closed = self.items.pop();
    }

    /// A copy.
    pub fn copy(&self) -> Result<Levels, AllocError>
        ensures { IfOk result (λ same. same ≡ self.now) }
    {
        let items = Vec::from_slice(self.alloc, self.items.as_slice())?;
        Ok(Levels {
            items,
            alloc: self.alloc,
        })
    }
}
