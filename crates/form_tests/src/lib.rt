//! Tests of both forms of saves: what is read and written at the bounds of each.
#![tactic(auto)]

#[cfg(test)]
mod json;
#[cfg(test)]
mod nbt;
