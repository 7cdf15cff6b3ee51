//! Why bytes are no list of polls.
use std::alloc::{AllocError, AllocFailed};

/// Why bytes are no input of votes.
#[derive(Clone, Copy, Debug, PartialEq, Eq)]
pub enum VotesFault {
    /// The first line with which the lines begin no input, counted from 1; 0 for too many bytes.
    Line(u32),
    NoMemory,
}

impl From<AllocError> for VotesFault {
    ghost use Rattle.std.specs.Prelude.{◌≡◌};
    ghost use Rattle.vote_form.specs.declared.votes_faults.VotesFault.TheVariants.{NoMemory};

    ghost from_gives = { λ _ fault. fault ≡ NoMemory };

    fn from(_error: AllocError) -> VotesFault {
        VotesFault::NoMemory
    }
}

impl<T: Drop> From<AllocFailed<T>> for VotesFault {
    ghost use Rattle.std.specs.Prelude.{◌≡◌};
    ghost use Rattle.vote_form.specs.declared.votes_faults.VotesFault.TheVariants.{NoMemory};

    ghost from_gives = { λ _ fault. fault ≡ NoMemory };

    fn from(_error: AllocFailed<T>) -> VotesFault {
        VotesFault::NoMemory
    }
}
