//! The limits that several crates keep to.

/// The most bytes of a save, in either form: this project's own limit.
pub const MOST_SAVE_BYTES: usize = 16_777_216;

/// The most bytes of a chain text: this project's own limit.
pub const MOST_CHAIN_BYTES: usize = 1_048_576;

/// The greatest version of a save, and the greatest target: what a signed number of 32 bits can say.
pub const LAST_VERSION: u32 = 2_147_483_647;
