//! How a run begins: its wire over what was opened, its nodes with their passes dealt to workers, and
//! the Downs of those that can't be opened.
#![tactic(auto)]

mod deals;
mod downs;
mod seats;
mod starts;

pub use deals::{collect, deal, empty_shares, let_go};
pub use downs::down_visits;
pub use node_rounds::{
    Closed, Limits, Reason, RunNode, SharedWire, Told, WirePass, conduct, is_any_down,
    is_any_wanting, meet_share, pass_time, settle_all, turn_again,
};
pub use seats::{Seated, open_nodes, take_apart};
pub use starts::{Begun, wire_for};
