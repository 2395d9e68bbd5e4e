//! Functions on the fields of a record: what they are, and the record that each makes of a record.
#![tactic(auto)]

mod apply;
mod case_fields;
mod clear;
mod copies;
mod fault;
mod fill;
mod function;
mod lists;
mod nests;
mod ops;
mod records;
mod retags;
mod settling;
mod slots;
mod target;

pub use case_fields::CaseFields;
pub use fault::FuncFault;
pub use fill::Fill;
pub use function::{FieldFn, FieldOp, Scope};
pub use mig_slots::Names;
