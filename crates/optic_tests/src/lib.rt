//! Tests of optics: a chain of them parts a list of nodes and rejoins the residue with other foci, by its own type and as an `AnyOptic`.
#![tactic(auto)]

#[cfg(test)]
mod chains;
#[cfg(test)]
mod tests;
#[cfg(test)]
mod values;
