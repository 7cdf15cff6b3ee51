//! The messages between brokers and repositories.
ghost use Rattle.std.specs.Prelude.{◌≡◌, IfOk};

use pseudo_time::{Decision, PseudoTime, Stamp};
use std::alloc::{AllocError, Global};
use value_form::{ObjectId, Value};

/// What brokers and repositories send one another (Svobodova 1981). The home of a stamp is the
/// repository that has the stamp's commit record.
#[derive(Debug, Drop, PartialEq, Eq)]
pub enum Message {
    /// To the home: a commit record is to begin, with a timeout of 1 to 1,000,000 moments.
    Begin {
        stamp: Stamp,
        timeout: u32,
    },
    /// From the home: the commit record has begun.
    Begun {
        stamp: Stamp,
    },
    /// To a repository: what does the object hold at this pseudotime?
    Read {
        at: PseudoTime,
        object: ObjectId,
    },
    /// The answer to a Read.
    Value {
        at: PseudoTime,
        value: Value,
    },
    /// To a repository: the object is to have this value from this pseudotime on.
    Write {
        at: PseudoTime,
        object: ObjectId,
        value: Value,
    },
    /// The version of a Write stands.
    Stored {
        at: PseudoTime,
    },
    /// A Write is refused: the version before it was read up to this end.
    LaterRead {
        at: PseudoTime,
        end: PseudoTime,
    },
    /// A Write is refused: the object has a version with this start, not before the Write.
    LaterVersion {
        at: PseudoTime,
        start: PseudoTime,
    },
    /// A Read or Write comes too late: its action is decided.
    Ended {
        at: PseudoTime,
    },
    /// To the home: the action is to be committed.
    Commit {
        stamp: Stamp,
    },
    /// To the home: the action is to be withdrawn.
    Withdraw {
        stamp: Stamp,
    },
    /// From the home to the broker: the decision that stands.
    Decided {
        stamp: Stamp,
        decision: Decision,
    },
    /// Between repositories: how was the stamp decided?
    Ask {
        stamp: Stamp,
    },
    /// The answer to an Ask.
    Tell {
        stamp: Stamp,
        committed: bool,
    },
}

impl Message {
    ghost use Rattle.message_form.specs.Messages.{tag_of};

    /// The byte that its text begins with: which kind of message it is, from 1 to 14.
    pub fn tag(&self) -> u8
        ensures { result ≡ tag_of self.now }
    {
        match self {
            Message::Begin { .. } => 1,
            Message::Begun { .. } => 2,
            Message::Read { .. } => 3,
            Message::Value { .. } => 4,
            Message::Write { .. } => 5,
            Message::Stored { .. } => 6,
            Message::LaterRead { .. } => 7,
            Message::LaterVersion { .. } => 8,
            Message::Ended { .. } => 9,
            Message::Commit { .. } => 10,
            Message::Withdraw { .. } => 11,
            Message::Decided { .. } => 12,
            Message::Ask { .. } => 13,
            Message::Tell { .. } => 14,
        }
    }

    /// An equal message.
    pub fn copy(&self, alloc: Global) -> Result<Message, AllocError>
        ensures { IfOk result (λ m. m ≡ self.now) }
    {
        match self {
            Message::Begin { stamp, timeout } => Ok(Message::Begin {
                stamp: *stamp,
                timeout: *timeout,
            }),
            Message::Begun { stamp } => Ok(Message::Begun { stamp: *stamp }),
            Message::Read { at, object } => Ok(Message::Read {
                at: *at,
                object: *object,
            }),
            Message::Value { at, value } => {
                let value = value.copy(alloc)?;
                Ok(Message::Value { at: *at, value })
            }
            Message::Write { at, object, value } => {
                let value = value.copy(alloc)?;
                Ok(Message::Write {
                    at: *at,
                    object: *object,
                    value,
                })
            }
            Message::Stored { at } => Ok(Message::Stored { at: *at }),
            Message::LaterRead { at, end } => Ok(Message::LaterRead { at: *at, end: *end }),
            Message::LaterVersion { at, start } => Ok(Message::LaterVersion {
                at: *at,
                start: *start,
            }),
            Message::Ended { at } => Ok(Message::Ended { at: *at }),
            Message::Commit { stamp } => Ok(Message::Commit { stamp: *stamp }),
            Message::Withdraw { stamp } => Ok(Message::Withdraw { stamp: *stamp }),
            Message::Decided { stamp, decision } => Ok(Message::Decided {
                stamp: *stamp,
                decision: *decision,
            }),
            Message::Ask { stamp } => Ok(Message::Ask { stamp: *stamp }),
            Message::Tell { stamp, committed } => Ok(Message::Tell {
                stamp: *stamp,
                committed: *committed,
            }),
        }
    }
}
