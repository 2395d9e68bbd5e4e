//! Tests of templates: the parts that make a record, the faults of a family, versions under a path, and the places that the finder finds.
#![tactic(auto)]

#[cfg(test)]
mod families;
#[cfg(test)]
mod places;
#[cfg(test)]
mod records;
#[cfg(test)]
mod versions;
#[cfg(test)]
mod words;
