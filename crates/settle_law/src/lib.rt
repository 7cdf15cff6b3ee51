//! What a run without brokers comes to.
#![tactic(auto)]

mod laws;

pub use laws::law_of_settling;
