//! The words of a call: which command they are.
#![tactic(auto)]

mod commands;
mod numbers;
mod options;
mod rules;

pub use commands::{Command, Options, read_words};
pub use rules::Rule;
