//! A broker at work: its core, its log and its pass.
#![tactic(auto)]

mod cores;
mod logs;
mod nodes;

pub use cores::BrokerCore;
pub use node_turn::{Closed, Condition, SharedWire, Told, Turned, Wire, WirePass};
pub use nodes::{BrokerNode, is_done, open_broker};
