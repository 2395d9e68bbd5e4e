//! Why bytes were not read, or a tree not written.
ghost use Rattle.std.specs.Prelude.{◌≡◌};
ghost use Rattle.mig_nbt.specs.declared.error.NbtError.TheVariants.{Memory};

use std::alloc::{AllocError, AllocFailed};
use thiserror::Error;

/// Why bytes were not read: they are no file of the NBT form, or memory ran out.
#[derive(Clone, Copy, Debug, Drop, PartialEq, Eq, Error)]
pub enum NbtError {
    #[error("not an NBT file")]
    Wrong,
    #[error("out of memory")]
    Memory,
}

impl From<AllocError> for NbtError {
    ghost from_gives = { λ _ e. e ≡ Memory };

    fn from(_refused: AllocError) -> NbtError {
        NbtError::Memory
    }
}

impl<T: Drop> From<AllocFailed<T>> for NbtError {
    ghost from_gives = { λ _ e. e ≡ Memory };

    fn from(_refused: AllocFailed<T>) -> NbtError {
        NbtError::Memory
    }
}

impl From<mig_tree::Memory> for NbtError {
    ghost from_gives = { λ _ e. e ≡ Memory };

    fn from(_refused: mig_tree::Memory) -> NbtError {
        NbtError::Memory
    }
}
