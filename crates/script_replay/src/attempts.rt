//! What logs tell of attempts.
use effect_form::Outcome;
use pseudo_time::{PseudoTime, Stamp};
use value_form::{Items, ObjectId, Script, Value};

/// An answer that an attempt got.
#[derive(Drop)]
pub enum Reply {
    /// To a read: what the object holds.
    Got(Value),
    /// To a write.
    Stored,
}

/// A version that stands with an attempt's stamp, or stood.
#[derive(Drop)]
pub struct Put {
    pub object: ObjectId,
    pub start: PseudoTime,
    pub value: Value,
}

/// An attempt, as logs tell it.
#[derive(Drop)]
pub struct Attempt {
    pub stamp: Stamp,
    pub script: Script,
    /// In the order in which it got them.
    pub replies: Items<Reply>,
    /// Its End in its broker's log.
    pub ended: Option<Outcome>,
    /// Whether its home decided so.
    pub committed: bool,
    /// All versions with its stamp, in the order of their starts.
    pub puts: Items<Put>,
}

/// What logs tell of a stamp.
#[derive(Drop)]
pub enum Told {
    /// Its broker's log has the attempt.
    Tried(Attempt),
    /// Its broker has no log. These are the versions of a committed attempt, in the order of their starts.
    Given(Stamp, Items<Put>),
}

impl Told {
    ghost use Rattle.std.specs.Prelude.{◌≡◌};
    ghost use Rattle.script_replay.specs.Attempts.{stamp_of};

    /// The stamp of which this is told.
    pub fn stamp(&self) -> Stamp
        ensures { result ≡ stamp_of self.now }
    {
        match self {
            Told::Tried(attempt) => attempt.stamp,
            Told::Given(stamp, _) => *stamp,
        }
    }
}
