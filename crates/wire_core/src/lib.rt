//! The wire between the nodes of a run: it hands out copies of messages, sends messages, lets time
//! pass, and keeps the trace of all that happened.
#![tactic(auto)]

mod changes;
mod ends;
mod flags;
mod sendings;
mod storied;
mod stories;
mod takens;
mod wires;

pub use flags::Standing;
pub use sendings::send_all;
pub use takens::Taken;
pub use wires::Wire;
