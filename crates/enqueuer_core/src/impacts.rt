//! What members give in a world.
ghost use Rattle.std.specs.Prelude.{◌≡◌, ◌<◌, length, IfOk, slice_get, Some};
ghost use Rattle.enqueuer_core.specs.Least.{Meaning, IsLawful};

use std::alloc::AllocError;
use type_masks::Shape;
use world_state::{Fact, Impact, Snapshot};

/// Members, the facts that hold from the start, and what each member gives in a world.
pub trait Impacts {
    /// The shape, the roots, and the impact of each member in each world.
    ghost meaning: { Self → Meaning };

    /// How many members, slots and kinds there are.
    fn shape(&self) -> Shape
        ensures { result ≡ (meaning self.now).shape };

    /// How many roots there are.
    fn root_count(&self) -> u32
        ensures { result ≡ length (meaning self.now).roots };

    /// A fact that holds from the start.
    fn root(&self, i: u32) -> Fact
        requires { i < length (meaning self.now).roots }
        ensures { slice_get (meaning self.now).roots i ≡ Some result };

    /// What the member gives in the world of the snapshot.
    fn impact(&self, member: u32, at: &Snapshot) -> Result<Impact, AllocError>
        requires shape { at.now.shape ≡ (meaning self.now).shape }
        requires member { member < (meaning self.now).shape.members }
        ensures { IfOk result (λ impact. impact ≡ (meaning self.now).impact member at.now) };

    /// An impact is the same in every world that agrees on its reads, and more facts never take facts from it.
    ghost lawful: { (impacts : Self) → IsLawful (meaning impacts) };
}
