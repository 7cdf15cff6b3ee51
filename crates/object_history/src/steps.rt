//! What a read or a write of an object comes to.
use pseudo_time::{PseudoTime, Stamp};
use std::alloc::{AllocError, AllocFailed};
use value_form::Value;

/// What came of a read.
#[derive(Debug, Drop, PartialEq, Eq)]
pub enum ReadStep {
    /// The value that is seen. Where `stretch` holds, what was seen is now read up to the read's
    /// pseudotime.
    Answer { value: Value, stretch: bool },
    /// A version of this attempt is seen, which is still undecided.
    Wait { stamp: Stamp },
    /// It lies below the floor, which is this end.
    LaterRead { end: PseudoTime },
}

/// What came of a write.
#[derive(Clone, Copy, Debug, PartialEq, Eq)]
pub enum WriteStep {
    /// It is a version now.
    Put,
    /// It stands already, with this value.
    Again,
    /// A version that isn't dead starts there or later; this is the last one's start.
    LaterVersion { start: PseudoTime },
    /// The last version that isn't dead was read up to this end, which is later.
    LaterRead { end: PseudoTime },
}

/// Why histories gave no answer.
#[derive(Clone, Copy, Debug, PartialEq, Eq)]
pub enum HistoryFault {
    /// The medium below failed.
    Medium,
    /// What was read from this page of the medium below is no part of the histories.
    Damaged { page: u32 },
    /// Memory for it ran out.
    NoMemory,
}

impl From<AllocError> for HistoryFault {
    ghost use Rattle.std.specs.Prelude.{◌≡◌};
    ghost use Rattle.object_history.specs.declared.steps.HistoryFault.TheVariants.{NoMemory};

    ghost from_gives = { λ _ e. e ≡ NoMemory };

    fn from(_e: AllocError) -> HistoryFault {
        HistoryFault::NoMemory
    }
}

impl<T: Drop> From<AllocFailed<T>> for HistoryFault {
    ghost use Rattle.std.specs.Prelude.{◌≡◌};
    ghost use Rattle.object_history.specs.declared.steps.HistoryFault.TheVariants.{NoMemory};

    ghost from_gives = { λ _ e. e ≡ NoMemory };

    fn from(_e: AllocFailed<T>) -> HistoryFault {
        HistoryFault::NoMemory
    }
}
