//! Why no tree is answered.
use std::alloc::AllocError;
use thiserror::Error;

/// Why a rule of the grammar answers no tree.
#[derive(Clone, Copy, Debug, PartialEq, Eq)]
pub enum Fault {
    /// Memory ran out.
    Memory,
    /// No tree derives the tokens.
    NotDerived,
}

impl From<AllocError> for Fault {
    ghost use Rattle.std.specs.Prelude.{◌≡◌};
    ghost use Rattle.expr_parser.specs.declared.fault.Fault.TheVariants.{Memory};

    ghost from_gives = { λ _ e. e ≡ Memory };

    fn from(_: AllocError) -> Fault {
        Fault::Memory
    }
}

/// Why the tokens of a file are not parsed. Places are offsets in bytes.
#[derive(Clone, Copy, Debug, PartialEq, Eq, Error)]
pub enum SyntaxFault {
    /// No tree derives the tokens. The place is 0 so far.
    #[error("not derived at byte {at}")]
    NotDerived { at: u32 },
    /// The first token that is nested too deep begins here. A call whose caller has looked for such tokens before never
    /// says this.
    #[error("nested too deep at byte {at}")]
    TooDeep { at: u32 },
    /// Memory was wanting.
    #[error("out of memory")]
    Memory,
}

impl From<AllocError> for SyntaxFault {
    ghost use Rattle.std.specs.Prelude.{◌≡◌};
    ghost use Rattle.expr_parser.specs.declared.fault.SyntaxFault.TheVariants.{Memory};

    ghost from_gives = { λ _ e. e ≡ Memory };

    fn from(_: AllocError) -> SyntaxFault {
        SyntaxFault::Memory
    }
}
