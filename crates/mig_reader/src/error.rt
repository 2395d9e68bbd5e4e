//! Why tokens are read as nothing.
ghost use Rattle.std.specs.Prelude.{◌≡◌};
ghost use Rattle.mig_reader.specs.declared.error.ParseError.TheVariants as errors;

use mig_model::Memory;
use std::alloc::{AllocError, AllocFailed};
use thiserror::Error;

/// Why tokens gave no declaration.
#[derive(Clone, Copy, Debug, Drop, PartialEq, Eq, Error)]
pub enum ParseError {
    /// The tokens aren't a declaration of the grammar, which is this project's own.
    #[error("not a declaration")]
    Wrong,
    /// Want of memory.
    #[error("out of memory")]
    Memory,
}

impl<T: Drop> From<AllocFailed<T>> for ParseError {
    ghost from_gives = { λ _ e. e ≡ errors.Memory };

    fn from(_refused: AllocFailed<T>) -> ParseError {
        ParseError::Memory
    }
}

impl From<AllocError> for ParseError {
    ghost from_gives = { λ _ e. e ≡ errors.Memory };

    fn from(_refused: AllocError) -> ParseError {
        ParseError::Memory
    }
}

impl From<Memory> for ParseError {
    ghost from_gives = { λ _ e. e ≡ errors.Memory };

    fn from(_refused: Memory) -> ParseError {
        ParseError::Memory
    }
}
