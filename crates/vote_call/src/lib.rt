//! Votes over the members' media: from opening them to handing them back.
#![tactic(auto)]

mod member_media;
mod openings;
mod poll_lists;
mod starts;
mod tellings;
mod voters;
mod voting;

pub use member_media::MemberMedia;
pub use tellings::{told_status, told_text};
pub use vote_run::Limits;
pub use voting::{VoteEnd, Voted, votes};
