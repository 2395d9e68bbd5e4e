//! Why no place is found.
ghost use Rattle.std.specs.Prelude.{◌≡◌};
ghost use Rattle.mig_finder.specs.declared.fault.FindFault.TheVariants as faults;

use mig_tree::Memory;
use std::alloc::{AllocError, AllocFailed};
use thiserror::Error;

/// Why no place was found.
#[derive(Clone, Copy, Debug, Drop, PartialEq, Eq, Error)]
pub enum FindFault {
    /// The template has no place of the name.
    #[error("the name has no place in the template")]
    NoneThere,
    /// Want of memory.
    #[error("out of memory")]
    Memory,
}

impl<T: Drop> From<AllocFailed<T>> for FindFault {
    ghost from_gives = { λ _ e. e ≡ faults.Memory };

    fn from(_refused: AllocFailed<T>) -> FindFault {
        FindFault::Memory
    }
}

impl From<AllocError> for FindFault {
    ghost from_gives = { λ _ e. e ≡ faults.Memory };

    fn from(_refused: AllocError) -> FindFault {
        FindFault::Memory
    }
}

impl From<Memory> for FindFault {
    ghost from_gives = { λ _ e. e ≡ faults.Memory };

    fn from(_refused: Memory) -> FindFault {
        FindFault::Memory
    }
}
