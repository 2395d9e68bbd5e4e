//! Saves in the JSON form, read and written through `serde_json`.
#![tactic(auto)]

mod error;
mod fitting;
mod law;
mod lending;
mod reading;
mod writing;

pub use error::JsonError;
pub use law::decoding;
pub use reading::{Document, parse};
pub use writing::write;
