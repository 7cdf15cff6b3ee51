//! A turn of a node: its visits, what its core gives, the append and the gate, and what follows a fault.
#![tactic(auto)]

mod closings;
mod conditions;
mod falls;
mod hands;
mod lookups;
mod nodes;
mod openings;
mod settling;
mod turns;

pub use conditions::{Condition, Turned};
pub use node_inputs::{Closed, Meanings, SharedWire, StoredCore, Told, Wire, WirePass};
pub use nodes::Node;
pub use openings::open_again;
