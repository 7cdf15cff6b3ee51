//! Why a watch didn't advance.
use pseudo_time::PseudoTime;
use std::alloc::{AllocError, AllocFailed};
use value_form::ObjectId;

/// Why a watch didn't advance.
#[derive(Clone, Copy, Debug, PartialEq, Eq)]
pub enum WatchFault {
    /// A version of the object that wasn't folded lies below the floor, where versions were given up.
    Retired { object: ObjectId, floor: PseudoTime },
    /// The rule gives no total at this version.
    Overflow { object: ObjectId, start: PseudoTime },
    /// Memory for it ran out.
    NoMemory,
}

impl From<AllocError> for WatchFault {
    ghost use Rattle.std.specs.Prelude.{◌≡◌};
    ghost use Rattle.commit_watch.specs.declared.faults.WatchFault.TheVariants.{NoMemory};

    ghost from_gives = { λ _ e. e ≡ NoMemory };

    fn from(_e: AllocError) -> WatchFault {
        WatchFault::NoMemory
    }
}

impl<T: Drop> From<AllocFailed<T>> for WatchFault {
    ghost use Rattle.std.specs.Prelude.{◌≡◌};
    ghost use Rattle.commit_watch.specs.declared.faults.WatchFault.TheVariants.{NoMemory};

    ghost from_gives = { λ _ e. e ≡ NoMemory };

    fn from(_e: AllocFailed<T>) -> WatchFault {
        WatchFault::NoMemory
    }
}
