//! Rules and fixes, and the families that they make.
#![tactic(auto)]

mod chain;
mod chain_step;
mod children;
mod families;
mod family_after;
mod fault;
mod fix;
mod laws;
mod levels;
mod names;
mod outcome;
mod path;
mod retyping;
mod rewriting;
mod rule;
mod walking;

pub use chain::Chain;
pub use chain_step::ChainStep;
pub use family_after::next;
pub use fault::{ChainError, StepFault, TargetFault, Walk};
pub use fix::{Fix, PathStep};
pub use laws::root_kinds_stay;
pub use rewriting::target;
pub use rule::{Rule, RuleBox};
