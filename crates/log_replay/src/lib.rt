//! What the logs of a folder tell of each stamp: attempts with their scripts and answers, how they were decided, and their versions.
#![tactic(auto)]

mod commits;
mod decisions;
mod drafts;
mod faults;
mod gifts;
mod laws;
mod puts;
mod tells;
mod wholes;

pub use decisions::first_misdecided;
pub use faults::ToldFault;
pub use laws::law_of_told;
pub use tells::{Telling, told_of};
pub use wholes::whole_of;
