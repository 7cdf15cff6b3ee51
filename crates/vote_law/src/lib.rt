//! Votes that nothing disturbs come to their decisions without a tick.
#![tactic(auto)]

mod laws;

pub use laws::law_of_calm_votes;
