//! The wire that the nodes share, under its lock, with a board of decisions.
#![tactic(auto)]

mod boards;
mod ends;
mod gates;
mod laws;
mod looks;
mod shared;
mod visits;

pub use boards::{number_of, place_of};
pub use ends::{Closed, Told};
pub use laws::{law_of_numbers, law_of_whole_stories};
pub use looks::Seen;
pub use shared::{LeftWire, SharedWire, WirePass};
