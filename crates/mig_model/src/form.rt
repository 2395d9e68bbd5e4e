//! The two forms of saves.
/// The form of a save: NBT of the Java Edition, uncompressed, or JSON.
#[derive(Clone, Copy, Debug, PartialEq, Eq)]
pub enum Form {
    Nbt,
    Json,
}
