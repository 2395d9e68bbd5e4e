//! What keeps a save from being lifted, and a migrator from being made.
ghost use Rattle.std.specs.Prelude.{◌≡◌};
ghost use Rattle.mig_lift.specs.declared.fault.LiftFault.TheVariants as fault;
ghost use Rattle.mig_lift.specs.declared.fault.NewFault.TheVariants as faults;

use mig_tree::{Memory, Place};
use std::alloc::{AllocError, AllocFailed};
use thiserror::Error;

/// Why a save's version is refused: it isn't there, it is no number of a version, or it is below the first schema or above the target.
#[derive(Clone, Copy, Debug, PartialEq, Eq)]
pub enum VersionKind {
    Absent,
    Wrong,
    Below(u32),
    Above(u32),
}

/// Why a save isn't lifted.
#[derive(Debug, Drop)]
pub enum LiftFault {
    /// The bytes are no file of the chain's form.
    Bytes,
    Version(VersionKind),
    /// The save doesn't fit its schema; the place is the first wrong one.
    Schema(Place),
    Memory,
}

/// Why there is no migrator, in the order in which the reasons are looked for.
#[derive(Clone, Copy, Debug, Drop, PartialEq, Eq, Error)]
pub enum NewFault {
    /// The chain isn't small, and others aren't lifted yet.
    #[error("the chain is not small, and others are not lifted yet")]
    NotYet,
    /// The target is below this version, the first schema's.
    #[error("the target is below the first schema, {0}")]
    TargetBelow(u32),
    /// Want of memory.
    #[error("out of memory")]
    Memory,
}

impl From<Memory> for LiftFault {
    ghost from_gives = { λ _ e. e ≡ fault.Memory };

    fn from(_: Memory) -> Self {
        LiftFault::Memory
    }
}

impl From<AllocError> for LiftFault {
    ghost from_gives = { λ _ e. e ≡ fault.Memory };

    fn from(_: AllocError) -> Self {
        LiftFault::Memory
    }
}

impl<T: Drop> From<AllocFailed<T>> for LiftFault {
    ghost from_gives = { λ _ e. e ≡ fault.Memory };

    fn from(_: AllocFailed<T>) -> Self {
        LiftFault::Memory
    }
}

impl From<Memory> for NewFault {
    ghost from_gives = { λ _ e. e ≡ faults.Memory };

    fn from(_: Memory) -> Self {
        NewFault::Memory
    }
}

impl From<AllocError> for NewFault {
    ghost from_gives = { λ _ e. e ≡ faults.Memory };

    fn from(_: AllocError) -> Self {
        NewFault::Memory
    }
}

impl<T: Drop> From<AllocFailed<T>> for NewFault {
    ghost from_gives = { λ _ e. e ≡ faults.Memory };

    fn from(_: AllocFailed<T>) -> Self {
        NewFault::Memory
    }
}
