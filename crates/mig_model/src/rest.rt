//! Whether a record's maps may have names that it doesn't list.
/// Whether names that a record doesn't list may stand in its maps.
#[derive(Clone, Copy, Debug, PartialEq, Eq)]
pub enum Rest {
    Open,
    Closed,
}
