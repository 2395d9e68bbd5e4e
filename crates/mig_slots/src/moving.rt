//! The slots of one scope and the unknown slots beside them.
use crate::Slot;

/// The slots of a scope of a record value, and the unknown ones, which field functions take by value and hand back changed.
#[derive(Debug, Drop)]
pub struct Moving<'a> {
    pub slots: Vec<Slot<'a>>,
    pub rest: Vec<Slot<'a>>,
}
