//! Reading field functions: which tokens are one, and its syntax.
#![tactic(auto)]

mod function;

pub use function::function_at;
