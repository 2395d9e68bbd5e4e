//! Why a text gives no declarations.
ghost use Rattle.std.specs.Prelude.{◌≡◌};
ghost use Rattle.mig_parse.specs.declared.fault.ParseFault.TheVariants as faults;

use mig_model::Memory;
use std::alloc::{AllocError, AllocFailed};
use thiserror::Error;

/// Why a text gives no declarations.
#[derive(Clone, Copy, Debug, Drop, PartialEq, Eq, Error)]
pub enum ParseFault {
    /// The text has more than 1,048,576 bytes.
    #[error("the text has more than 1,048,576 bytes")]
    TooLong,
    /// The number, counted from 1, of the first declaration that isn't in the grammar.
    #[error("declaration {0} is not in the grammar")]
    Declaration(usize),
    /// Want of memory.
    #[error("out of memory")]
    Memory,
}

impl<T: Drop> From<AllocFailed<T>> for ParseFault {
    ghost from_gives = { λ _ e. e ≡ faults.Memory };

    fn from(_refused: AllocFailed<T>) -> ParseFault {
        ParseFault::Memory
    }
}

impl From<AllocError> for ParseFault {
    ghost from_gives = { λ _ e. e ≡ faults.Memory };

    fn from(_refused: AllocError) -> ParseFault {
        ParseFault::Memory
    }
}

impl From<Memory> for ParseFault {
    ghost from_gives = { λ _ e. e ≡ faults.Memory };

    fn from(_refused: Memory) -> ParseFault {
        ParseFault::Memory
    }
}
