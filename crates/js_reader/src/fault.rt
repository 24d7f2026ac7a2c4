//! Why bytes have no tree.

use std::alloc::AllocError;
use thiserror::Error;

/// Why there is no tree.
#[derive(Clone, Copy, Debug, Drop, PartialEq, Eq, Error)]
pub enum JsFault {
    /// No tree has the bytes as a spelling. The offset in bytes is that of the first token through which no file begins:
    /// files begin with the tokens in front of it, and none with it too. Where files begin with all the tokens, it is the
    /// length of the bytes.
    #[error("no file of the subset goes on as the one at byte {at}")]
    NotInProfile { at: u64 },
    /// Memory was wanting.
    #[error("out of memory")]
    Memory,
}

impl From<AllocError> for JsFault {
    ghost use Rattle.std.specs.Prelude.{◌≡◌};
    ghost use Rattle.js_reader.specs.declared.fault.JsFault.TheVariants.{Memory};

    ghost from_gives = { λ _ fault. fault ≡ Memory };

    fn from(_error: AllocError) -> JsFault {
        JsFault::Memory
    }
}
