//! Why logs can't be told.
use std::alloc::{AllocError, AllocFailed};

/// Why logs can't be told.
#[derive(Clone, Copy, Debug, PartialEq, Eq)]
pub enum ToldFault {
    /// Memory for it ran out.
    NoMemory,
    /// The log of the broker with this number has an attempt whose text is no script, or whose stamp an
    /// attempt before it has, in this log or in that of a broker below.
    Log(u8),
}

impl From<AllocError> for ToldFault {
    ghost use Rattle.std.specs.Prelude.{◌≡◌};
    ghost use Rattle.log_replay.specs.declared.faults.ToldFault.TheVariants.{NoMemory};

    ghost from_gives = { λ _ e. e ≡ NoMemory };

    fn from(_e: AllocError) -> ToldFault {
        ToldFault::NoMemory
    }
}

impl<T: Drop> From<AllocFailed<T>> for ToldFault {
    ghost use Rattle.std.specs.Prelude.{◌≡◌};
    ghost use Rattle.log_replay.specs.declared.faults.ToldFault.TheVariants.{NoMemory};

    ghost from_gives = { λ _ e. e ≡ NoMemory };

    fn from(_e: AllocFailed<T>) -> ToldFault {
        ToldFault::NoMemory
    }
}
