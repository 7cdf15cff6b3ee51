//! Why nothing is run.
use plan_form::PlanKind;
use std::alloc::{AllocError, AllocFailed};

/// Why no plan is run.
#[derive(Clone, Copy)]
pub enum Stop {
    /// Memory ran out.
    NoMemory,
    /// The input isn't a plan: the line of its fault, and what is wrong with it.
    Fault { line: u32, kind: PlanKind },
    /// The input isn't polls: the line of its fault, 0 where it is too long.
    Votes { line: u32 },
    /// The words are no command.
    Words,
    /// The source failed.
    Source,
    /// The sink failed.
    Sink,
}

impl From<AllocError> for Stop {
    ghost use Rattle.std.specs.Prelude.{◌≡◌};
    ghost use Rattle.run_command.specs.declared.stops.Stop.TheVariants.{NoMemory};

    ghost from_gives = { λ _ e. e ≡ NoMemory };

    fn from(_: AllocError) -> Stop {
        Stop::NoMemory
    }
}

impl<T: Drop> From<AllocFailed<T>> for Stop {
    ghost use Rattle.std.specs.Prelude.{◌≡◌};
    ghost use Rattle.run_command.specs.declared.stops.Stop.TheVariants.{NoMemory};

    ghost from_gives = { λ _ e. e ≡ NoMemory };

    fn from(_: AllocFailed<T>) -> Stop {
        Stop::NoMemory
    }
}
