//! A typed value is written as its tree.
#![tactic(auto)]

mod writing;

pub use writing::write;
