//! Optics on typed values: `AnyOptic`, which is chosen at run time, beside those that are each of its own type.
#![tactic(auto)]

mod any_optic;
mod parting;

pub use any_optic::{AnyOptic, OpticBox};
pub use mig_any_residue::AnyResidue;
pub use mig_path::{
    Counter, Here, HereRest, Memory, Name, Optic, Side, SideRest, Value, can_rejoin, foci_compose,
    frame_determines, join_is_over, over_reads, parted_rejoins, rejoined_parts, rest_is_frame,
};
pub use mig_record_optic::{CaseOf, CaseRest, FieldAt, Hole, MayField, MayRest};
pub use mig_typed_optic::{Cross, CrossRest, Each, EachRest, Then, ThenRest};
