//! Reads and repositories that wait for a decision.
use pseudo_time::{NodeId, Stamp};
use value_form::ObjectId;

/// A read that waits until an attempt is decided.
#[derive(Clone, Copy, Debug, PartialEq, Eq)]
pub struct HeldRead {
    /// Who is to be answered.
    pub from: NodeId,
    pub object: ObjectId,
    /// The attempt whose version is seen.
    pub waits: Stamp,
}

/// A repository that is to be informed how an attempt is decided. Askers are ordered by the repository's
/// number, then the stamp.
#[derive(Clone, Copy, Debug, PartialEq, Eq, PartialOrd, Ord)]
pub struct Asker {
    pub repository: u8,
    pub stamp: Stamp,
}
