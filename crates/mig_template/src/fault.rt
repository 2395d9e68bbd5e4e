//! Why parts make no record.
ghost use Rattle.std.specs.Prelude.{◌≡◌};
ghost use Rattle.mig_template.specs.declared.fault.RecordFault.TheVariants as faults;

use crate::Memory;
use std::alloc::{AllocError, AllocFailed};
use thiserror::Error;

/// Why parts gave no record. The rules are this project's own.
#[derive(Clone, Copy, Debug, Drop, PartialEq, Eq, Error)]
pub enum RecordFault {
    /// Two names or literals that must be distinct are equal.
    #[error("a name is there twice")]
    TwiceNamed,
    /// No two are, and the choice has no case.
    #[error("a choice has no case")]
    NoCase,
    /// Want of memory.
    #[error("out of memory")]
    Memory,
}

impl<T: Drop> From<AllocFailed<T>> for RecordFault {
    ghost from_gives = { λ _ e. e ≡ faults.Memory };

    fn from(_refused: AllocFailed<T>) -> RecordFault {
        RecordFault::Memory
    }
}

impl From<AllocError> for RecordFault {
    ghost from_gives = { λ _ e. e ≡ faults.Memory };

    fn from(_refused: AllocError) -> RecordFault {
        RecordFault::Memory
    }
}

impl From<Memory> for RecordFault {
    ghost from_gives = { λ _ e. e ≡ faults.Memory };

    fn from(_refused: Memory) -> RecordFault {
        RecordFault::Memory
    }
}
