//! Reading tokens from left to right: what the readers of templates, of rules and of declarations have in common.
#![tactic(auto)]

mod error;
mod tokens;

pub use error::ParseError;
pub use tokens::{
    begins, begins_text, behind, behind_first, first_kind, kind_at, kind_or_any_at, name_at,
    number_at, optional_at, text_at,
};
