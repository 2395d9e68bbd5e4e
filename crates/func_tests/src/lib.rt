//! Tests of leaf functions, and of field functions, across the crates that they go through: a JSON text is read by a record, the function makes the new record and the new value, and that is written as a tree again.
#![tactic(auto)]

#[cfg(test)]
mod functions;
#[cfg(test)]
mod leaves;
#[cfg(test)]
mod records;
#[cfg(test)]
mod shown;
#[cfg(test)]
mod tests;
