//! The tokens of chain texts, and in `specs/` when bytes are tokens and how a text is cut into declarations.
#![tactic(auto)]

mod mark;
mod token;

pub use mark::Mark;
pub use token::Token;
