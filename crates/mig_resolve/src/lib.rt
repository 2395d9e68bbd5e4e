//! Declarations as a chain, or the first fault of their text.
#![tactic(auto)]

mod before;
mod families;
mod fault;
mod laws;
mod resolving;
mod scan;
mod sorts;
mod steps;
mod type_names;

pub use fault::ChainFault;
pub use laws::walks_are_late;
pub use resolving::resolve;
