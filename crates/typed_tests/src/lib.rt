//! Tests of typed reading and writing, across the crates that they go through: a JSON text is parsed, read by a family, written again, and put out as JSON.
#![tactic(auto)]

#[cfg(test)]
mod families;
#[cfg(test)]
mod tests;
