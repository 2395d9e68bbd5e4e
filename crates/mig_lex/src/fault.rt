//! Why a text is no tokens.
ghost use Rattle.std.specs.Prelude.{◌≡◌};
ghost use Rattle.mig_lex.specs.declared.fault.LexFault.TheVariants.{Memory};

use std::alloc::{AllocError, AllocFailed};
use thiserror::Error;

/// Why bytes were not read as tokens.
#[derive(Clone, Copy, Debug, Drop, PartialEq, Eq, Error)]
pub enum LexFault {
    /// The bytes are no tokens of a chain text.
    #[error("no tokens of a chain text")]
    Wrong,
    /// Want of memory.
    #[error("out of memory")]
    Memory,
}

impl From<AllocError> for LexFault {
    ghost from_gives = { λ _ e. e ≡ Memory };

    fn from(_refused: AllocError) -> LexFault {
        LexFault::Memory
    }
}

impl<T: Drop> From<AllocFailed<T>> for LexFault {
    ghost from_gives = { λ _ e. e ≡ Memory };

    fn from(_refused: AllocFailed<T>) -> LexFault {
        LexFault::Memory
    }
}
