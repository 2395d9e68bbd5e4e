//! Why a tree was not read.
ghost use Rattle.std.specs.Prelude.{◌≡◌};
ghost use Rattle.mig_codec.specs.declared.fault.ReadFault.TheVariants as faults;

use mig_tree::{Memory, Place};
use std::alloc::{AllocError, AllocFailed};
use thiserror::Error;

/// Why a tree wasn't read.
#[derive(Debug, Drop, Error)]
pub enum ReadFault {
    /// The tree doesn't inhabit the named type; the place is the first wrong one.
    #[error("the tree doesn't fit its type")]
    Unfit(Place),
    /// Want of memory.
    #[error("out of memory")]
    Memory,
}

impl<T: Drop> From<AllocFailed<T>> for ReadFault {
    ghost from_gives = { λ _ e. e ≡ faults.Memory };

    fn from(_refused: AllocFailed<T>) -> ReadFault {
        ReadFault::Memory
    }
}

impl From<AllocError> for ReadFault {
    ghost from_gives = { λ _ e. e ≡ faults.Memory };

    fn from(_refused: AllocError) -> ReadFault {
        ReadFault::Memory
    }
}

impl From<Memory> for ReadFault {
    ghost from_gives = { λ _ e. e ≡ faults.Memory };

    fn from(_refused: Memory) -> ReadFault {
        ReadFault::Memory
    }
}
