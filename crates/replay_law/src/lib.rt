//! The logs that runs and retirements left say what their scripts do alone, one after another.
#![tactic(auto)]

mod laws;

pub use laws::law_of_replays;
