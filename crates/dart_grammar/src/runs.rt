//! Counted tokens, in a run for each open bracket and one for the file.
ghost use Rattle.std.specs.Prelude.{◌≡◌, ◌<◌, ◌^◌, ◌∷◌, [], OnOk};
ghost use Rattle.dart_grammar.specs.Loads as spec;

use std::alloc::{AllocError, Global};
use std::marker::Model;

/// How many counted tokens stand in each run; seen as a list with the innermost first.
#[derive(Debug, Drop)]
pub struct Runs {
    innermost: usize,
    outer: Vec<usize>,
    load: usize,
}

impl Model for Runs {
    ghost use Rattle.std.specs.Prelude.{List, ℕ, ◌≡◌, ◌∷◌, reverse};
    ghost use Rattle.dart_grammar.specs.Loads as spec;

    ghost Value = { List ℕ };

    ghost view = { λ runs. runs.innermost ∷ reverse runs.outer.items };

    ghost invariant = { λ runs. runs.load ≡ spec.load (runs.innermost ∷ reverse runs.outer.items) };
}

impl Runs {
    /// The run of the file, with no counted token.
    pub fn new(alloc: Global) -> Runs
        ensures { result ≡ 0 ∷ [] }
    {
        Runs {
            innermost: 0,
            outer: Vec::new(alloc),
            load: 0,
        }
    }

    /// The open brackets, and the counted tokens in the runs.
    pub fn load(&self) -> usize
        ensures { result ≡ spec.load self.now }
    {
        self.load
    }

    /// Begins the run of a bracket that is opened.
    #[tactic(auto, using(crate::proofs::Innermost::pushed))]
    pub fn open(&mut self) -> Result<(), AllocError>
        requires { spec.load self.old < 2 ^ 32 }
        ensures { OnOk result (self.new ≡ 0 ∷ self.old) }
    {
        self.outer.push(self.innermost)?;
        self.innermost = 0;
        self.load += 1;
        Ok(())
    }

    /// Leaves the run of a bracket that is closed; that of the file stays.
    #[tactic(auto, using(crate::proofs::Innermost::pushed))]
    pub fn leave(&mut self)
        ensures { self.new ≡ spec.left self.old }
    {
        if let Some(outer) = self.outer.pop() {
            self.load -= self.innermost + 1;
            self.innermost = outer;
        }
    }

    /// Begins the innermost run anew.
    pub fn begin_anew(&mut self)
        ensures { self.new ≡ spec.anew self.old }
    {
        self.load -= self.innermost;
        self.innermost = 0;
    }

    /// Counts a token in the innermost run.
    pub fn count(&mut self)
        requires { spec.load self.old < 2 ^ 32 }
        ensures { self.new ≡ spec.counted self.old }
    {
        self.innermost += 1;
        self.load += 1;
    }
}
