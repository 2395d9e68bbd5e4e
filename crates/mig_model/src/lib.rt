//! What the other crates speak of: forms, kinds and names, lists by name, and in `specs/` trees, maps, templates and families as plain data.
#![tactic(auto)]

mod form;
mod keyed;
mod kind;
mod limits;
mod memory;
mod name;
mod presence;
mod rest;

pub use form::Form;
pub use keyed::{Keyed, ascends, place_by_key, sort_by_key};
pub use kind::Kind;
pub use limits::{LAST_VERSION, MOST_CHAIN_BYTES, MOST_SAVE_BYTES};
pub use memory::Memory;
pub use name::Name;
pub use presence::Presence;
pub use rest::Rest;
