//! The media of a plan's nodes: what comes of opening them, and why no run begins over them.
#![tactic(auto)]

mod logs;
mod media;
mod openings;
mod places;
mod refusals;

pub use logs::opened_nodes;
pub use media::{are_open, give_back, open_all, open_one};
pub use openings::{Opening, Refusal};
pub use places::{node_at, node_count, own_acts};
pub use refusals::first_refusal;
