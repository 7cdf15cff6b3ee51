//! The retirement of a repository: its volumes are opened, and what its log carries forward is written
//! into the fresh one.
#![tactic(auto)]

mod carrying;
mod lines;
mod outcomes;
mod preparing;
mod retiring;

pub use outcomes::Retired;
pub use retiring::retire;
