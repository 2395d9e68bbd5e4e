//! Why bytes are no save.
ghost use Rattle.std.specs.Prelude.{◌≡◌};
ghost use Rattle.mig_json.specs.declared.error.JsonError.TheVariants.{Memory};

use std::alloc::{AllocError, AllocFailed};
use thiserror::Error;

/// Why bytes were not read: they are no save of the JSON form, or memory ran out.
#[derive(Clone, Copy, Debug, Drop, PartialEq, Eq, Error)]
pub enum JsonError {
    #[error("not a JSON save")]
    Wrong,
    #[error("out of memory")]
    Memory,
}

impl From<AllocError> for JsonError {
    ghost from_gives = { λ _ e. e ≡ Memory };

    fn from(_refused: AllocError) -> JsonError {
        JsonError::Memory
    }
}

impl<T: Drop> From<AllocFailed<T>> for JsonError {
    ghost from_gives = { λ _ e. e ≡ Memory };

    fn from(_refused: AllocFailed<T>) -> JsonError {
        JsonError::Memory
    }
}

impl From<mig_tree::Memory> for JsonError {
    ghost from_gives = { λ _ e. e ≡ Memory };

    fn from(_refused: mig_tree::Memory) -> JsonError {
        JsonError::Memory
    }
}
