//! Why an archive has no map as of a pseudotime.
use pseudo_time::PseudoTime;
use std::alloc::{AllocError, AllocFailed};
use value_form::ObjectId;

/// Why there is no map as of a pseudotime.
#[derive(Clone, Copy, Debug, PartialEq, Eq)]
pub enum AsOfFault {
    /// A version below it is undecided.
    Undecided { object: ObjectId, start: PseudoTime },
    /// Memory for it ran out.
    NoMemory,
}

impl From<AllocError> for AsOfFault {
    ghost use Rattle.std.specs.Prelude.{◌≡◌};
    ghost use Rattle.archive_store.specs.declared.faults.AsOfFault.TheVariants.{NoMemory};

    ghost from_gives = { λ _ e. e ≡ NoMemory };

    fn from(_e: AllocError) -> AsOfFault {
        AsOfFault::NoMemory
    }
}

impl<T: Drop> From<AllocFailed<T>> for AsOfFault {
    ghost use Rattle.std.specs.Prelude.{◌≡◌};
    ghost use Rattle.archive_store.specs.declared.faults.AsOfFault.TheVariants.{NoMemory};

    ghost from_gives = { λ _ e. e ≡ NoMemory };

    fn from(_e: AllocFailed<T>) -> AsOfFault {
        AsOfFault::NoMemory
    }
}
