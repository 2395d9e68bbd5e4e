//! Tests of whole runs: folders, chains and words in memory, with the bytes, lines and status that are wanted.
#![tactic(auto)]

#[cfg(test)]
mod accepted;
#[cfg(test)]
mod chains;
#[cfg(test)]
mod checking;
#[cfg(test)]
mod contents;
#[cfg(test)]
mod families;
#[cfg(test)]
mod grammar;
#[cfg(test)]
mod limits;
#[cfg(test)]
mod order;
#[cfg(test)]
mod pairs;
#[cfg(test)]
mod running;
#[cfg(test)]
mod tests;
#[cfg(test)]
mod walks;
