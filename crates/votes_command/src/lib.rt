//! Votes over the media that a shelf gives: the members' media are taken, the members and the polls vote,
//! and the media are handed back.
#![tactic(auto)]

mod shelves;
mod voting;

pub use vote_call::{Limits, VoteEnd, told_status, told_text};
pub use vote_form::{PollLine, VotesFault, parse};
pub use vote_report::{PollStanding, fault_line};
pub use voting::{VotesEnded, vote};
