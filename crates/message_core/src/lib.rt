//! The flight of messages: the copies of each, on their way between nodes, which are lost, repeated,
//! reordered and held as their fates say.
#![tactic(auto)]

mod flights;
mod holds;
mod laws;
mod letters;
mod queues;

pub use flights::Flight;
pub use laws::{copies_counted, copies_were_sent};
pub use letters::Arrival;
