//! How a poll ended.
use pseudo_time::Stamp;

/// How a poll stands: its stamp, and the decision that it holds, true where it commits.
#[derive(Clone, Copy, Debug, PartialEq, Eq)]
pub struct PollStanding {
    pub stamp: Stamp,
    pub held: Option<bool>,
}
