//! Why a log isn't carried forward.
use pseudo_time::PseudoTime;
use std::alloc::{AllocError, AllocFailed};
use value_form::ObjectId;

/// Why a log isn't carried forward.
#[derive(Clone, Copy, Debug, PartialEq, Eq)]
pub enum ForwardFault {
    /// The floor isn't below the mark.
    OldMark { floor: PseudoTime },
    /// A version below the mark is undecided.
    Undecided { object: ObjectId, start: PseudoTime },
    /// Memory ran out.
    NoMemory,
}

impl From<AllocError> for ForwardFault {
    ghost use Rattle.std.specs.Prelude.{◌≡◌};
    ghost use Rattle.forward_copy.specs.declared.faults.ForwardFault.TheVariants.{NoMemory};

    ghost from_gives = { λ _ e. e ≡ NoMemory };

    fn from(_e: AllocError) -> ForwardFault {
        ForwardFault::NoMemory
    }
}

impl<T: Drop> From<AllocFailed<T>> for ForwardFault {
    ghost use Rattle.std.specs.Prelude.{◌≡◌};
    ghost use Rattle.forward_copy.specs.declared.faults.ForwardFault.TheVariants.{NoMemory};

    ghost from_gives = { λ _ e. e ≡ NoMemory };

    fn from(_e: AllocFailed<T>) -> ForwardFault {
        ForwardFault::NoMemory
    }
}
