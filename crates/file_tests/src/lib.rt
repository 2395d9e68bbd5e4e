//! Tests of real folders and writers, and of the doubles in memory that fail where they are told to.
#![tactic(auto)]

#[cfg(test)]
mod tests;
