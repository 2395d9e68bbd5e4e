//! Why a rule gave no template, or a fix no family.
ghost use Rattle.std.specs.Prelude.{◌≡◌};
ghost use Rattle.mig_rule.specs.declared.fault.TargetFault.TheVariants as faults;
ghost use Rattle.mig_rule.specs.declared.fault.StepFault.TheVariants as steps;
ghost use Rattle.mig_rule.specs.declared.fault.ChainError.TheVariants as chains;

use mig_schema::SchemaFault;
use mig_tree::Memory;
use std::alloc::{AllocError, AllocFailed};
use thiserror::Error;

/// Why a rule gave no template.
#[derive(Clone, Copy, Debug, Drop, PartialEq, Eq, Error)]
pub enum TargetFault {
    /// The rule doesn't fit the template.
    #[error("the rule does not fit the template")]
    Unfit,
    /// Want of memory.
    #[error("out of memory")]
    Memory,
}

/// Why a fix gave no family.
#[derive(Clone, Copy, Debug, Drop, PartialEq, Eq, Error)]
pub enum StepFault {
    /// A name, or a step of the path, means nothing in the family.
    #[error("a name means nothing in the family")]
    NoName,
    /// The rule fits no type, or the leaf function doesn't fit its leaf.
    #[error("the fix fits nothing")]
    Missed,
    /// The family after the fix isn't formed; `Memory` never stands here.
    #[error("the family after the fix is none: {0}")]
    IllFormed(SchemaFault),
    /// Want of memory.
    #[error("out of memory")]
    Memory,
}

/// Why a step of a chain isn't accepted, in the order in which the reasons are looked for.
#[derive(Clone, Copy, Debug, Drop, PartialEq, Eq, Error)]
pub enum Walk {
    /// The chain doesn't begin with a schema that gives a family.
    #[error("it doesn't begin with a schema that gives a family")]
    First,
    /// The schema's version isn't above the one before, or is too great, or its family is of another form or version path.
    #[error("the schema is out of order")]
    Order,
    /// The fix's number isn't the version of the next schema.
    #[error("the number of the fix is not the version of the next schema")]
    Number,
    /// A name of the fix, or a step of its path, means nothing in the family.
    #[error("a name means nothing in the family")]
    NoName,
    /// The fix fits nothing.
    #[error("the fix fits nothing")]
    Missed,
    /// The family after the fix isn't formed.
    #[error("the family after the fix is none")]
    IllFormed,
    /// The schema's family isn't the one that the fixes give.
    #[error("the family is not the one that the fixes give")]
    Mismatch,
}

/// Why steps are no chain.
#[derive(Clone, Copy, Debug, Drop, PartialEq, Eq, Error)]
pub enum ChainError {
    /// The place of the first step that isn't accepted, and why.
    #[error("step {0}: {1}")]
    At(usize, Walk),
    /// Want of memory.
    #[error("out of memory")]
    Memory,
}

impl<T: Drop> From<AllocFailed<T>> for ChainError {
    ghost from_gives = { λ _ e. e ≡ chains.Memory };

    fn from(_refused: AllocFailed<T>) -> ChainError {
        ChainError::Memory
    }
}

impl From<AllocError> for ChainError {
    ghost from_gives = { λ _ e. e ≡ chains.Memory };

    fn from(_refused: AllocError) -> ChainError {
        ChainError::Memory
    }
}

impl From<Memory> for ChainError {
    ghost from_gives = { λ _ e. e ≡ chains.Memory };

    fn from(_refused: Memory) -> ChainError {
        ChainError::Memory
    }
}

impl<T: Drop> From<AllocFailed<T>> for StepFault {
    ghost from_gives = { λ _ e. e ≡ steps.Memory };

    fn from(_refused: AllocFailed<T>) -> StepFault {
        StepFault::Memory
    }
}

impl From<AllocError> for StepFault {
    ghost from_gives = { λ _ e. e ≡ steps.Memory };

    fn from(_refused: AllocError) -> StepFault {
        StepFault::Memory
    }
}

impl From<Memory> for StepFault {
    ghost from_gives = { λ _ e. e ≡ steps.Memory };

    fn from(_refused: Memory) -> StepFault {
        StepFault::Memory
    }
}

impl<T: Drop> From<AllocFailed<T>> for TargetFault {
    ghost from_gives = { λ _ e. e ≡ faults.Memory };

    fn from(_refused: AllocFailed<T>) -> TargetFault {
        TargetFault::Memory
    }
}

impl From<AllocError> for TargetFault {
    ghost from_gives = { λ _ e. e ≡ faults.Memory };

    fn from(_refused: AllocError) -> TargetFault {
        TargetFault::Memory
    }
}

impl From<Memory> for TargetFault {
    ghost from_gives = { λ _ e. e ≡ faults.Memory };

    fn from(_refused: Memory) -> TargetFault {
        TargetFault::Memory
    }
}
