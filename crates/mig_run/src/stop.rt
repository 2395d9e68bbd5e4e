//! How a run ends.
ghost use Rattle.std.specs.Prelude.{◌≡◌};
ghost use Rattle.mig_run.specs.declared.stop.Stop.TheVariants as stop;

use mig_tree::Memory;
use std::alloc::{AllocError, AllocFailed};

/// How a run that isn't stopped ends.
#[derive(Clone, Copy, Debug, PartialEq, Eq)]
pub enum Ending {
    /// The command was run, and no save was refused.
    Done,
    /// The command was run, and a save was refused.
    SomeRefused,
    /// A line says why the command wasn't run.
    NotRun,
}

/// Why a run stops before its end: a call of the files or of the report failed, or memory ran out.
#[derive(Clone, Copy, Debug, PartialEq, Eq)]
pub enum Stop {
    Files,
    Report,
    Memory,
}

impl From<Memory> for Stop {
    ghost from_gives = { λ _ e. e ≡ stop.Memory };

    fn from(_refused: Memory) -> Self {
        Stop::Memory
    }
}

impl From<AllocError> for Stop {
    ghost from_gives = { λ _ e. e ≡ stop.Memory };

    fn from(_refused: AllocError) -> Self {
        Stop::Memory
    }
}

impl<T: Drop> From<AllocFailed<T>> for Stop {
    ghost from_gives = { λ _ e. e ≡ stop.Memory };

    fn from(_refused: AllocFailed<T>) -> Self {
        Stop::Memory
    }
}
