//! Templates, constants and leaf functions out of their syntax, and what may be wrong with them.
#![tactic(auto)]

mod constants;
mod leaf_functions;
mod nesting;
mod ranges;
mod templates;
mod wrong_kinds;

pub use constants::constant;
pub use leaf_functions::leaf_function;
pub use nesting::{fields_nest_above, nests_above};
pub use ranges::{const_in_range, leaf_in_range};
pub use templates::{fields, template};
pub use wrong_kinds::{
    const_is_wrong, fields_are_wrong, is_wrong_kind, leaf_is_wrong, template_is_wrong,
};
