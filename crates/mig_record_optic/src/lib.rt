//! The optics on record values: a field, one that may be absent, and a case.
#![tactic(auto)]

mod case;
mod field;

pub use case::{CaseOf, CaseRest};
pub use field::{FieldAt, Hole, MayField, MayRest};
