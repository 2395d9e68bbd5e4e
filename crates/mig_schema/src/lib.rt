//! Families: named templates of which one is the root, formed as a chain of fixes needs them.
#![tactic(auto)]

mod checks;
mod depth;
mod family;
mod fault;
mod kinds;
mod named;
mod parts;
mod reach;
mod version;

pub use family::Family;
pub use fault::SchemaFault;
pub use mig_template::{Template, TemplateBox};
pub use mig_tree::{Form, Kind, Memory, Name};
pub use version::VersionPath;
