//! The optics to the items of a list and to the body of a node, and one optic after another.
#![tactic(auto)]

mod cross;
mod each;
mod lists;
mod then;

pub use cross::{Cross, CrossRest};
pub use each::{Each, EachRest};
pub use lists::{add_part, take_front};
pub use then::{Then, ThenRest};
