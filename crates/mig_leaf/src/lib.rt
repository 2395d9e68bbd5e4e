//! Constants of leaf kinds, and functions on leaves.
#![tactic(auto)]

mod constant;
mod leaf_fn;
mod number;
mod table;
mod text;

pub use constant::Const;
pub use leaf_fn::LeafFn;
pub use table::{Table, copy_pairs};
