//! What a report says, before it is text.
use pseudo_time::{DownCause, NodeId, PseudoTime, Stamp};
use value_form::{FailKind, Items, Line, ObjectId, Value};

/// How an attempt ended, as far as its broker knows.
#[derive(Clone, Copy, Debug, PartialEq, Eq)]
pub enum TryOutcome {
    /// It hasn't ended.
    Open,
    /// Its writes stand.
    Committed,
    /// Its script gave up at this line, from 1 to 200.
    Withdrawn { line: u16 },
    /// Its script failed at this line, from 1 to 200.
    Failed { line: u16, kind: FailKind },
    /// A write was refused: the version before it was read up to `end`.
    LaterRead { object: ObjectId, end: PseudoTime },
    /// A write was refused: a version starts at `start`, not before it.
    LaterVersion { object: ObjectId, start: PseudoTime },
    /// Its commit record was still unknown at `moment`, which isn't below its `deadline`.
    Expired { deadline: u64, moment: u64 },
}

/// One attempt at an act.
#[derive(Debug, Drop)]
pub struct TryReport {
    pub stamp: Stamp,
    pub outcome: TryOutcome,
    /// What it read, wrote and printed, in order.
    pub lines: Items<Line>,
}

/// An act and its attempts.
#[derive(Debug, Drop)]
pub struct ActReport {
    /// Its number in the plan, from 1.
    pub index: u32,
    pub broker: u8,
    pub home: u8,
    /// How many attempts the plan allows it.
    pub allowed: u8,
    /// Its attempts, in order.
    pub tries: Items<TryReport>,
    /// The last clock that was used or shown, where no clock was left for the act.
    pub spent: Option<u64>,
}

/// How an act stands at the end of a run. A refused or expired attempt ends its act only where it was
/// the last one allowed.
#[derive(Clone, Copy, Debug, PartialEq, Eq)]
pub enum ActOutcome {
    Committed,
    Withdrawn,
    Failed,
    Refused,
    Expired,
    Spent,
    Open,
}

/// What an object holds at the end of a run.
#[derive(Debug, Drop)]
pub struct Final {
    pub object: ObjectId,
    pub value: Value,
}

/// A node that is down.
#[derive(Clone, Copy, Debug, PartialEq, Eq)]
pub struct Down {
    pub node: NodeId,
    pub cause: DownCause,
}

/// What the wire and the nodes did: messages sent, those of them that ask for a decision, ticks and
/// crashes.
#[derive(Clone, Copy, Debug, PartialEq, Eq)]
pub struct Wire {
    pub messages: u64,
    pub asks: u64,
    pub ticks: u64,
    pub crashes: u64,
}

/// What a run did.
#[derive(Debug, Drop)]
pub struct Report {
    /// The number of the run, from 1.
    pub run: u32,
    /// The acts in the order of the plan.
    pub acts: Items<ActReport>,
    /// The objects, in rising order. One whose value is Nothing has no line.
    pub finals: Items<Final>,
    /// The nodes that are down, in the order of their names.
    pub downs: Items<Down>,
    /// None where no wire served the run.
    pub wire: Option<Wire>,
}
