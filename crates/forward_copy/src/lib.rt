//! Retirement: what of a log is carried forward into a fresh volume, and the append that does it.
#![tactic(auto)]

mod carries;
mod copies;
mod faults;
mod firms;
mod forwards;
mod opens;
mod settles;
mod sieves;
mod versions;
mod wholes;

pub use carries::carry;
pub use copies::Forward;
pub use faults::ForwardFault;
pub use forwards::forward;
pub use settles::settles_of;
pub use wholes::has_whole;
