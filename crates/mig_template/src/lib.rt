//! Templates: what a save may be, with records whose names are distinct and whose fields and cases ascend.
#![tactic(auto)]

mod case_search;
mod cases;
mod fault;
mod fields;
mod inside;
mod kinds;
mod ordering;
mod record;
mod template;

pub use fault::RecordFault;
pub use fields::{Field, Fields};
pub use inside::{IsPoint, TemplateTest, is_point, passes_inside};
pub use kinds::KindSet;
pub use mig_model::{Presence, Rest};
pub use mig_tree::{Form, Kind, Memory, Name};
pub use record::{Case, Choice, Record};
pub use template::{Template, TemplateBox};
