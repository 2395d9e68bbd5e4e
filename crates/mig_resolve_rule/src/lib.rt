//! Rules and fixes out of their syntax, and what may be wrong with them.
#![tactic(auto)]

mod faults;
mod fills;
mod fixes;
mod functions;
mod rules;
mod walk;

pub use fixes::{fix, fix_is_deep, fix_is_out_of_range, fix_is_wrong};
