//! How an attempt can end.
use pseudo_time::PseudoTime;
use value_form::{FailKind, ObjectId};

/// How an attempt ended, or that its act has no clock left.
#[derive(Clone, Copy, Debug, PartialEq, Eq)]
pub enum Outcome {
    /// Its record was committed.
    Committed,
    /// Its script gave up at this line, from 1 to 200.
    Withdrawn { line: u16 },
    /// Its script failed at this line, from 1 to 200.
    Failed { line: u16, kind: FailKind },
    /// A write was refused: the version before it was read up to `end`.
    LaterRead { object: ObjectId, end: PseudoTime },
    /// A write was refused: a version starts at `start`, not before it.
    LaterVersion { object: ObjectId, start: PseudoTime },
    /// Its record was still unknown at `moment`, which isn't below its `deadline`.
    Expired { deadline: u64, moment: u64 },
    /// The next clock would pass the last one; `clock` is the greatest that was used or shown.
    Spent { clock: u64 },
}
