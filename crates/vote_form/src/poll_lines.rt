//! A poll, as a line asks for it.
use pseudo_time::Stamp;
use record_votes::Wish;

/// What a poll is made of: the stamp that it asks members to decide, for how many moments they keep
/// the record unknown, and how it wants it decided.
#[derive(Clone, Copy, Debug, PartialEq, Eq)]
pub struct PollLine {
    pub stamp: Stamp,
    pub timeout: u32,
    pub wish: Wish,
}
