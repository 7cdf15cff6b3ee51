//! The states of a commit record, and what a step on one comes to.
use pseudo_time::Decision;

/// What a repository knows of an attempt whose commit record it keeps.
#[derive(Clone, Copy, Debug, PartialEq, Eq)]
pub enum RecordState {
    /// It may still be committed. It expires at the first moment heard that isn't below the
    /// deadline.
    Unknown { deadline: u64 },
    Decided(Decision),
}

/// What came of asking for a new record.
#[derive(Clone, Copy, Debug, PartialEq, Eq)]
pub enum BeginStep {
    /// There was none, and now there is one, unknown.
    New,
    /// There was one, still unknown.
    Unknown,
    /// There was one, with this decision.
    Decided(Decision),
}

/// What came of asking for a decision.
#[derive(Clone, Copy, Debug, PartialEq, Eq)]
pub enum DecideStep {
    /// The record was unknown and is decided so now.
    Now(Decision),
    /// The record was decided before, so, and stays.
    Before(Decision),
}
