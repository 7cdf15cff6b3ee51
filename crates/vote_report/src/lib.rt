//! What came of polls: the text that tells of them, and the status.
#![tactic(auto)]

mod standings;
mod statuses;
mod writing;

pub use standings::PollStanding;
pub use statuses::status_of;
pub use writing::{fault_line, write_votes};
