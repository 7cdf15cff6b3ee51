//! Nodes of either kind go in rounds, on several threads, until the run has ended.
#![tactic(auto)]

mod conductors;
mod kinds;
mod limits;
mod meetings;
mod nodes;
mod pauses;
mod reasons;
mod settlings;
mod turns;

pub use broker_node::{Closed, SharedWire, Told, Wire, WirePass, open_broker};
pub use conductors::{conduct, is_any_down, is_any_wanting};
pub use kinds::AnyNode;
pub use limits::Limits;
pub use meetings::meet_share;
pub use nodes::RunNode;
pub use pauses::{pass_time, turn_again};
pub use reasons::Reason;
pub use repository_node::open_repository;
pub use settlings::settle_all;
