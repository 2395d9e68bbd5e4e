//! Where a value stands in a record value.
/// Where a value stands in a record value: its index among the fields, or among the fields of the case.
#[derive(Clone, Copy, Debug, Drop, PartialEq, Eq)]
pub enum SlotPlace {
    Field(usize),
    Cased(usize),
}
