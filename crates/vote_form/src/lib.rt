//! The input of votes: poll lines, their grammar with its faults.
#![tactic(auto)]

mod laws;
mod line_parts;
mod parsing;
mod poll_lines;
mod votes_faults;

pub use laws::law_of_inputs;
pub use parsing::parse;
pub use poll_lines::PollLine;
pub use votes_faults::VotesFault;
