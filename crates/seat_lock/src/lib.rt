//! A lock whose value stands for a list of entries, its story.
#![tactic(auto)]

mod boards;
mod endings;
mod lends;
mod locks;
mod meetings;
mod openings;
mod plays;
mod stories;
mod turns;
mod views;
mod visits;

pub use locks::{LockTable, Pass, SeatLock, Visit};
pub use stories::Storied;
pub use views::{Founding, LockRule, Part, Stage, View};
