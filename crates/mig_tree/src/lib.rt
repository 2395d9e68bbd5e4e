//! Save trees: texts, lists, maps that ascend by name, places in them, and the counter of entered nodes.
#![tactic(auto)]

mod entries;
mod gathering;
mod items;
mod place;
mod spelling;
mod steps;
mod text;
mod tree;
mod write_step;

pub use entries::{Entries, Entry};
pub use gathering::gather;
pub use items::Items;
pub use mig_model::{Form, Kind, Memory, Name};
pub use place::{Place, Step};
pub use spelling::spell;
pub use steps::Steps;
pub use text::Text;
pub use tree::Tree;
