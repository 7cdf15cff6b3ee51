//! The top call: from words to a report.
#![tactic(auto)]

mod histories;
mod outcomes;
mod plans;
mod retirements;
mod top;
mod votes;

pub use run_command::{Finish, Kept, Told, no_votes, takes_part, was_not_opened};
pub use top::swallow;
