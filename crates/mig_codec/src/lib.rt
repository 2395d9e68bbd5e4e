//! Typed values of trees: a save is read by its schema exactly where it inhabits it, and what was read is written as the same tree.
#![tactic(auto)]

mod codec;
mod fault;
mod laws;
mod pieces;
mod reading;
mod stop;

pub use codec::read;
pub use fault::ReadFault;
pub use laws::nodes_by_tree;
pub use mig_write::write;
