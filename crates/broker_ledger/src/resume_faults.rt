//! Why a broker can't resume from a log.
use std::alloc::AllocError;

/// Why a broker can't resume from a log.
#[derive(Clone, Copy, Debug, PartialEq, Eq)]
pub enum ResumeFault {
    /// The log's last run, `latest`, is later than this run.
    OldRun { latest: u32 },
    /// The log has an act of this run that isn't the plan's in its place: the first has this index.
    OtherPlan { index: u32 },
    NoMemory,
}

impl From<AllocError> for ResumeFault {
    ghost use Rattle.std.specs.Prelude.{◌≡◌};
    ghost use Rattle.broker_ledger.specs.declared.resume_faults.ResumeFault.TheVariants.{NoMemory};

    ghost from_gives = { λ _ e. e ≡ NoMemory };

    fn from(_: AllocError) -> ResumeFault {
        ResumeFault::NoMemory
    }
}
