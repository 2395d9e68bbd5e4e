//! Why named templates make no family.
ghost use Rattle.std.specs.Prelude.{◌≡◌};
ghost use Rattle.mig_schema.specs.declared.fault.SchemaFault.TheVariants as faults;

use crate::Memory;
use std::alloc::{AllocError, AllocFailed};
use thiserror::Error;

/// Why named templates are no family. The rules are this project's own.
#[derive(Clone, Copy, Debug, Drop, PartialEq, Eq, Error)]
pub enum SchemaFault {
    /// A type name occurs twice.
    #[error("a type name is there twice")]
    TwiceNamed,
    /// There are more than 512 named types.
    #[error("there are too many types")]
    TooMany,
    /// A template nests more than 64 templates.
    #[error("a template is too deep")]
    TooDeep,
    /// A leaf's kind isn't a leaf kind of the form.
    #[error("a leaf has a kind that the form hasn't")]
    WrongKind,
    /// A point or the root isn't a named type.
    #[error("a name is no type")]
    UnknownName,
    /// A point stands as a whole body or as a side of a sum.
    #[error("a point is a whole body or a side of a sum")]
    Unguarded,
    /// The two sides of a sum share a kind.
    #[error("the sides of a sum share a kind")]
    SumOverlap,
    /// In the NBT form, a list's element hasn't exactly one kind.
    #[error("a list's element hasn't exactly one kind")]
    MixedList,
    /// The root's body isn't a record.
    #[error("the root is no record")]
    RootNotRecord,
    /// A name of the version path but the last isn't a common Must field of its record, or the path leads to what isn't a record.
    #[error("the version path leads to no record")]
    VersionPath,
    /// The record that the version path leads to has the path's last name as a field, tag or case field.
    #[error("the version's name is used")]
    VersionNameUsed,
    /// Want of memory.
    #[error("out of memory")]
    Memory,
}

impl<T: Drop> From<AllocFailed<T>> for SchemaFault {
    ghost from_gives = { λ _ e. e ≡ faults.Memory };

    fn from(_refused: AllocFailed<T>) -> SchemaFault {
        SchemaFault::Memory
    }
}

impl From<AllocError> for SchemaFault {
    ghost from_gives = { λ _ e. e ≡ faults.Memory };

    fn from(_refused: AllocError) -> SchemaFault {
        SchemaFault::Memory
    }
}

impl From<Memory> for SchemaFault {
    ghost from_gives = { λ _ e. e ≡ faults.Memory };

    fn from(_refused: Memory) -> SchemaFault {
        SchemaFault::Memory
    }
}
