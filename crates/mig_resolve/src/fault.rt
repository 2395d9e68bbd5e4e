//! What is wrong with a chain text.
ghost use Rattle.std.specs.Prelude.{◌≡◌};
ghost use Rattle.mig_resolve.specs.declared.fault.ChainFault.TheVariants as faults;

use mig_tree::Memory;
use std::alloc::{AllocError, AllocFailed};
use thiserror::Error;

/// Why declarations are no chain. docs/chain-text.md tells what each number means.
#[derive(Clone, Copy, Debug, Drop, PartialEq, Eq, Error)]
pub enum ChainFault {
    /// The number of the fault, from 1 to 14, and the number of the declaration, from 1.
    #[error("fault {number} at {declaration}")]
    Fault { number: u8, declaration: usize },
    /// Want of memory.
    #[error("out of memory")]
    Memory,
}

impl<T: Drop> From<AllocFailed<T>> for ChainFault {
    ghost from_gives = { λ _ e. e ≡ faults.Memory };

    fn from(_refused: AllocFailed<T>) -> ChainFault {
        ChainFault::Memory
    }
}

impl From<AllocError> for ChainFault {
    ghost from_gives = { λ _ e. e ≡ faults.Memory };

    fn from(_refused: AllocError) -> ChainFault {
        ChainFault::Memory
    }
}

impl From<Memory> for ChainFault {
    ghost from_gives = { λ _ e. e ≡ faults.Memory };

    fn from(_refused: Memory) -> ChainFault {
        ChainFault::Memory
    }
}
