//! The volumes of a plan's nodes: all are taken and opened, a run is given one of each node, and all are
//! handed back.
#![tactic(auto)]

mod asides;
mod keeping;
mod opening;
mod rooms;

pub use asides::Aside;
pub use keeping::keep_nodes;
pub use opening::{Opened, open_nodes};
pub use rooms::{Rooms, make_rooms};
pub use run_volumes::{
    Kept, Opening, Standing, give_back, keep_volumes, node_log, open_volumes, stand_of,
};
