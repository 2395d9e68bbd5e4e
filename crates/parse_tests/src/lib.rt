//! Tests of the parser: a text is read as tokens and these as a declaration, which is compared as its derived `Debug` writes it.
#![tactic(auto)]

#[cfg(test)]
mod declarations;
#[cfg(test)]
mod functions;
#[cfg(test)]
mod levels;
#[cfg(test)]
mod reading;
#[cfg(test)]
mod refused;
#[cfg(test)]
mod rules;
#[cfg(test)]
mod templates;
#[cfg(test)]
mod tokens;
