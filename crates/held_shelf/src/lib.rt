//! A shelf over media that are held open: those that a run handed back are handed out again.
#![tactic(auto)]

mod asked_names;
mod held_shelves;
mod holding_shelves;
mod slots;

pub use held_shelves::HeldShelf;
pub use holding_shelves::HoldingShelf;
