//! Reading constants and leaf functions: which tokens are one, and its syntax.
#![tactic(auto)]

mod leaf;

pub use leaf::{const_at, leaf_at};
