//! The finder: the places of a name in a template, as optics.
#![tactic(auto)]

mod fault;
mod finding;
mod law;
mod places;

pub use fault::FindFault;
pub use finding::{Found, find};
pub use law::{places_fit, places_lead};
