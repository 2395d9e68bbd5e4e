//! Reading templates: which tokens are one, to 256 levels, and its syntax.
#![tactic(auto)]

mod levels;
mod outer;

pub use outer::{MAX_LEVELS, braced_fields, part, template};
