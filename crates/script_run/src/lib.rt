//! A script carried out step by step: it stops at each request, and goes on with the answer.
#![tactic(auto)]

mod frames;
mod halts;
mod machines;
mod nexts;
mod paths;
mod runs;
mod steps;

pub use nexts::Next;
pub use runs::Run;
