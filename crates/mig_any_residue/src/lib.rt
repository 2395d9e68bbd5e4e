//! What any optic leaves of a value, whichever it is: each optic's residue is held by one type, which is rejoined with foci.
#![tactic(auto)]

mod any_residue;
mod held;
mod rejoining;

pub use any_residue::{AnyGroup, AnyResidue};
pub use held::{HeldOptic, part_held};
pub use rejoining::rejoin_any;
