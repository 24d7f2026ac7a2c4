//! What is had once more without a copy.

ghost use Rattle.std.specs.Prelude.{◌≡◌};

/// What is had once more without memory.
pub trait Share: Sized {
    /// The same once more.
    fn share(&self) -> Self
        ensures { result ≡ self.now };
}
