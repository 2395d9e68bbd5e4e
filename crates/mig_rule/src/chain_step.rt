//! The steps of a chain.
use crate::Fix;
use mig_schema::Family;

/// A schema with its version, and its family where it gives one; or a fix with its number.
#[derive(Debug)]
pub enum ChainStep {
    /// A schema; without a family it has the one that the fixes give.
    Schema(u32, Option<Family>),
    /// A fix, whose number is the version of the next schema.
    Fix(u32, Fix),
}

// By hand, so that a caller proves one call and no branch for each part.
impl Drop for ChainStep {
    fn drop(self) {
        match self {
            ChainStep::Schema(_, family) => drop(family),
            ChainStep::Fix(_, fix) => drop(fix),
        }
    }
}
