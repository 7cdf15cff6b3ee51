//! `replay`: all logs of a folder are read, every attempt is carried out again by its script, and what differs is said.
#![tactic(auto)]

mod calls;
mod counts;
mod gathering;
mod judging;
mod logs;
mod texts;

pub use calls::replay;
