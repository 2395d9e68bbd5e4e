//! Why a function gives no new record.
ghost use Rattle.std.specs.Prelude.{◌≡◌};
ghost use Rattle.mig_func.specs.declared.fault.FuncFault.TheVariants as faults;

use mig_tree::Memory;
use std::alloc::{AllocError, AllocFailed};
use thiserror::Error;

/// Why a field function gave no record. The rules are this project's own.
#[derive(Clone, Copy, Debug, Drop, PartialEq, Eq, Error)]
pub enum FuncFault {
    /// The function doesn't fit the record.
    #[error("a field function doesn't fit the record")]
    Misfit,
    /// Want of memory.
    #[error("out of memory")]
    Memory,
}

impl<T: Drop> From<AllocFailed<T>> for FuncFault {
    ghost from_gives = { λ _ e. e ≡ faults.Memory };

    fn from(_refused: AllocFailed<T>) -> FuncFault {
        FuncFault::Memory
    }
}

impl From<AllocError> for FuncFault {
    ghost from_gives = { λ _ e. e ≡ faults.Memory };

    fn from(_refused: AllocError) -> FuncFault {
        FuncFault::Memory
    }
}

impl From<Memory> for FuncFault {
    ghost from_gives = { λ _ e. e ≡ faults.Memory };

    fn from(_refused: Memory) -> FuncFault {
        FuncFault::Memory
    }
}
