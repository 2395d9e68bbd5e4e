//! Saves in the NBT form.
#![tactic(auto)]

mod error;
mod reading;
mod tag;
mod writing;

pub use error::NbtError;
pub use reading::read;
pub use tag::Tag;
pub use writing::{decoding, round_trip, write};
