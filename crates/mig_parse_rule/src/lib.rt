//! Reading rules: which tokens are one, to 256 levels, and its syntax.
#![tactic(auto)]

mod levels;

pub use levels::rule;
