//! The effects, of which logs are made.
ghost use Rattle.std.specs.Prelude.{◌≡◌, IfOk};

use crate::outcomes::Outcome;
use pseudo_time::{Decision, PseudoTime, Stamp};
use std::alloc::{AllocError, Global};
use value_form::{Bytes, ObjectId, Value};

/// Where an effect stands in version storage: its page, and the place of its first byte there.
#[derive(Clone, Copy, Debug, PartialEq, Eq)]
pub struct Place {
    /// Below 1,048,576.
    pub page: u32,
    /// From 4 to 4,095.
    pub offset: u16,
}

/// What a node adds to its log (Svobodova 1981: version storage is only appended to).
#[derive(Debug, Drop, PartialEq, Eq)]
pub enum Effect {
    /// A version of an object, from its start on.
    Put {
        object: ObjectId,
        start: PseudoTime,
        value: Value,
    },
    /// The version that a read at this pseudotime saw was read up to it.
    Stretch {
        object: ObjectId,
        at: PseudoTime,
    },
    /// A commit record, unknown until its deadline at the latest.
    Begin {
        stamp: Stamp,
        deadline: u64,
    },
    /// The commit record was decided here, at its home.
    Decide {
        stamp: Stamp,
        decision: Decision,
    },
    /// The decision of a commit record with another home was learned.
    Learn {
        stamp: Stamp,
        committed: bool,
    },
    /// A broker begins a run.
    Run {
        number: u32,
    },
    /// A broker begins an act.
    Act {
        index: u32,
        home: u8,
        timeout: u32,
        tries: u8,
        clock: u64,
        script: Bytes,
    },
    /// A broker begins an attempt.
    Try {
        index: u32,
        stamp: Stamp,
    },
    /// A read of this step was answered.
    Got {
        step: u32,
        value: Value,
    },
    /// A write of this step was acknowledged.
    Acked {
        step: u32,
    },
    /// An attempt ended, or the act is spent.
    End {
        index: u32,
        outcome: Outcome,
    },
    /// A retirement read every object at this pseudotime, and versions below it were given up.
    Mark {
        at: PseudoTime,
    },
    /// What a retirement kept stands whole before it.
    Whole,
}

impl Effect {
    /// An equal effect.
    pub fn copy(&self, alloc: Global) -> Result<Effect, AllocError>
        ensures { IfOk result (λ e. e ≡ self.now) }
    {
        match self {
            Effect::Put {
                object,
                start,
                value,
            } => {
                let value = value.copy(alloc)?;
                Ok(Effect::Put {
                    object: *object,
                    start: *start,
                    value,
                })
            }
            Effect::Stretch { object, at } => Ok(Effect::Stretch {
                object: *object,
                at: *at,
            }),
            Effect::Begin { stamp, deadline } => Ok(Effect::Begin {
                stamp: *stamp,
                deadline: *deadline,
            }),
            Effect::Decide { stamp, decision } => Ok(Effect::Decide {
                stamp: *stamp,
                decision: *decision,
            }),
            Effect::Learn { stamp, committed } => Ok(Effect::Learn {
                stamp: *stamp,
                committed: *committed,
            }),
            Effect::Run { number } => Ok(Effect::Run { number: *number }),
            Effect::Act {
                index,
                home,
                timeout,
                tries,
                clock,
                script,
            } => {
                let script = script.copy(alloc)?;
                Ok(Effect::Act {
                    index: *index,
                    home: *home,
                    timeout: *timeout,
                    tries: *tries,
                    clock: *clock,
                    script,
                })
            }
            Effect::Try { index, stamp } => Ok(Effect::Try {
                index: *index,
                stamp: *stamp,
            }),
            Effect::Got { step, value } => {
                let value = value.copy(alloc)?;
                Ok(Effect::Got { step: *step, value })
            }
            Effect::Acked { step } => Ok(Effect::Acked { step: *step }),
            Effect::End { index, outcome } => Ok(Effect::End {
                index: *index,
                outcome: *outcome,
            }),
            Effect::Mark { at } => Ok(Effect::Mark { at: *at }),
            Effect::Whole => Ok(Effect::Whole),
        }
    }
}
