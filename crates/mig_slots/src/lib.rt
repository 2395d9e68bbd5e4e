//! What field functions do to the slots of a record value.
#![tactic(auto)]

mod adding;
mod edits;
mod leaves;
mod moving;
mod names;
mod naming;
mod nesting;
mod settling;

pub use adding::{add, drop_field, fill_absent};
pub use leaves::{map_leaf, unify, wrap};
pub use mig_value::{Memory, Name, Slot, Text, Tree, Value};
pub use moving::Moving;
pub use names::Names;
pub use naming::{forget, learn, rename};
pub use nesting::{nest, unnest};
pub use settling::settle;
