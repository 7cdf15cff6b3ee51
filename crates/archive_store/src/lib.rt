//! The archive: the logs of a repository's volumes joined, and the map as of any pseudotime.
#![tactic(auto)]

mod archives;
mod clocks;
mod faults;
mod holders;
mod homes;
mod joins;
mod known;
mod latest;
mod opens;
mod starts;

pub use archives::Archive;
pub use clocks::clock_above;
pub use faults::AsOfFault;
pub use homes::asof_among;
pub use known::Known;
