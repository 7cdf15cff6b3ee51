//! Members on their media: how a turn's effects are made durable, and what follows a fault.
#![tactic(auto)]

mod closings;

pub use closings::{Closed, close};
