//! A run of the program's words on any files and report: each save is lifted or refused, with a line of its own.
#![tactic(auto)]

mod chain;
mod check_command;
mod command;
mod folder;
mod lift_command;
mod lines;
mod save;
mod stop;
mod top_call;
mod words;

pub use top_call::run;
