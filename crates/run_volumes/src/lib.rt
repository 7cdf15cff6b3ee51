//! The volumes of a node: taken from a shelf, opened one after another, and handed back.
#![tactic(auto)]

mod kept;
mod roles;
mod shelves;
mod standings;
mod volumes;

pub use kept::{Kept, keep_one, keep_volumes};
pub use roles::{current, fresh, node_log};
pub use run_media::{Opening, give_back, node_at, node_count, open_one};
pub use shelves::take_volume;
pub use standings::{Standing, stand_of};
pub use volumes::open_volumes;
