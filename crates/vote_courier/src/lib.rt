//! The copies of messages between members and polls, the trace of what happened, and the polls' turns.
#![tactic(auto)]

mod couriers;
mod laws;
mod turns;

pub use couriers::Courier;
pub use laws::{couriers_begin_legal, couriers_stay_legal, polls_stay_legal};
pub use turns::{poll_goes, poll_turn};
