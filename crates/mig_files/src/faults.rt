//! Why a call on files or on a sink was refused.
ghost use Rattle.std.specs.Prelude.{◌≡◌};
ghost use Rattle.mig_files.specs.declared.faults.FileFault.TheVariants as file;
ghost use Rattle.mig_files.specs.declared.faults.SinkFault.TheVariants as sink;

use std::alloc::{AllocError, AllocFailed};
use thiserror::Error;

/// Why a call on files was refused.
#[derive(Clone, Copy, Debug, Drop, PartialEq, Eq, Error)]
pub enum FileFault {
    #[error("the call failed")]
    Failed,
    #[error("the file is absent")]
    Absent,
    #[error("the file is longer than the limit")]
    Long,
    #[error("out of memory")]
    Memory,
}

/// What a call of the files answers.
pub type FileResult<T> = Result<T, FileFault>;

/// Why a sink took no bytes, or not all of them.
#[derive(Clone, Copy, Debug, Drop, PartialEq, Eq, Error)]
pub enum SinkFault {
    #[error("the put failed")]
    Failed,
    #[error("out of memory")]
    Memory,
}

impl From<AllocError> for FileFault {
    ghost from_gives = { λ _ e. e ≡ file.Memory };

    fn from(_refused: AllocError) -> Self {
        FileFault::Memory
    }
}

impl<T: Drop> From<AllocFailed<T>> for FileFault {
    ghost from_gives = { λ _ e. e ≡ file.Memory };

    fn from(_refused: AllocFailed<T>) -> Self {
        FileFault::Memory
    }
}

impl From<AllocError> for SinkFault {
    ghost from_gives = { λ _ e. e ≡ sink.Memory };

    fn from(_refused: AllocError) -> Self {
        SinkFault::Memory
    }
}

impl<T: Drop> From<AllocFailed<T>> for SinkFault {
    ghost from_gives = { λ _ e. e ≡ sink.Memory };

    fn from(_refused: AllocFailed<T>) -> Self {
        SinkFault::Memory
    }
}
