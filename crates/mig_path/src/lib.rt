//! Optics on typed values: what every optic does, as plain data and as a trait, and the laws of it. The value itself and the sides of a sum are here too.
#![tactic(auto)]

mod here;
mod laws;
mod lists;
mod optic;
mod side;

pub use here::{Here, HereRest};
pub use laws::{
    can_rejoin, foci_compose, frame_determines, join_is_over, over_reads, parted_rejoins,
    rejoined_parts, rest_is_frame,
};
pub use lists::{only, single};
pub use mig_value::{Counter, Memory, Name, Value};
pub use optic::Optic;
pub use side::{Side, SideRest};
