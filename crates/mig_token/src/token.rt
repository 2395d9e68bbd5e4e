//! Tokens.
use crate::Mark;

/// A token of a chain text. Names and texts are slices of the source; a text is what stands between the quotation marks.
#[derive(Clone, Copy, Debug)]
pub enum Token<'a> {
    Mark(Mark),
    Name(&'a [u8]),
    Number(i128),
    Text(&'a [u8]),
}
