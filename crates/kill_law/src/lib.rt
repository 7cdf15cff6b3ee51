//! A run that is killed at any place leaves logs that a run left: nothing acknowledged is lost.
#![tactic(auto)]

mod laws;

pub use laws::place_has_past;
