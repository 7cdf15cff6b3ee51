//! Commit records that three repositories vote on: each votes once, and two equal votes decide. One of
//! the three may be down.
#![tactic(auto)]

mod ballots;
mod laws;
mod member_numbers;
mod members;
mod owned;
mod polls;
mod votes;

pub use ballots::Wish;
pub use laws::{decisions_stand, one_decision, one_decision_of_all_calls, votes_stand};
pub use members::Member;
pub use polls::Poll;
