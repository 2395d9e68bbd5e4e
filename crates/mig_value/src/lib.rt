//! Typed values: a save read by its schema, in which each tree of a named type is a node of its own.
#![tactic(auto)]

mod boxed;
mod counter;
mod extras;
mod keeping;
mod law;
mod leaf;
mod node;
mod place;
mod record;
mod slots;
mod value;
mod values;

pub use boxed::ValueBox;
pub use counter::Counter;
pub use law::{fit_unfolds, read_fits};
pub use mig_tree::{Memory, Name, Steps, Text, Tree};
pub use node::Node;
pub use place::SlotPlace;
pub use record::RecValue;
pub use slots::{Slot, Slots};
pub use value::Value;
pub use values::Values;
