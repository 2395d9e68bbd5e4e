//! Reading of chain texts: how a text is cut into declarations, and the tokens of a declaration.
#![tactic(auto)]

mod fault;
mod number;
mod pieces;
mod read;
mod sign;
mod string;
mod white;
mod word;

pub use fault::LexFault;
pub use pieces::{Pieces, cut, one_cut};
pub use read::{one_reading, tokens};
pub use white::is_blank;
