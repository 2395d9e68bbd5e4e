//! Lifting one save from its version to a target.
#![tactic(auto)]

mod fault;
mod fix;
mod lifting;
mod migrator;
mod schema;
mod small;
mod version;

pub use fault::{LiftFault, NewFault, VersionKind};
pub use mig_model::LAST_VERSION;
pub use migrator::Migrator;
