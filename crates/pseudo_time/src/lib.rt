//! Stamps, pseudotimes, the decisions of commit records, the names of nodes and why they are down.
#![tactic(auto)]

mod decisions;
mod down_causes;
mod nodes;
mod stamps;
mod times;

pub use decisions::Decision;
pub use down_causes::DownCause;
pub use nodes::{NodeId, NodeKind};
pub use stamps::{LAST_CLOCK, Stamp, next_clock};
pub use times::{PseudoTime, order_of_bytes, order_of_times};
