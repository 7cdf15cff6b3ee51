//! What can be wrong with a plan.
ghost use Rattle.std.specs.Prelude.{◌≡◌};
ghost use Rattle.plan_form.specs.PlanFaults.{kind_text};

use script_form::ParseKind;
use std::alloc::{AllocError, AllocFailed};

/// What is wrong with a line of a plan.
#[derive(Clone, Copy, Debug, PartialEq, Eq)]
pub enum PlanKind {
    /// There are more than 4,194,304 bytes.
    Size,
    /// The first line isn't `swallow plan 1`.
    Header,
    /// The second line isn't `run N`.
    Run,
    /// The third line isn't `repositories R`.
    Repositories,
    /// The fourth line isn't `brokers B`.
    Brokers,
    /// A line between acts that is no act line of this plan.
    Act,
    /// The act line of the 10,001st act.
    Acts,
    /// A line of a script. An object of a repository that the plan doesn't have is `Range`.
    Script(ParseKind),
    /// The last act has no `done`.
    End,
}

impl PlanKind {
    /// The words that report a fault.
    pub fn words(self) -> &'static str
        ensures { result.now ≡ kind_text self }
    {
        match self {
            PlanKind::Size => "size",
            PlanKind::Header => "header",
            PlanKind::Run => "run",
            PlanKind::Repositories => "repositories",
            PlanKind::Brokers => "brokers",
            PlanKind::Act => "act",
            PlanKind::Acts => "acts",
            PlanKind::Script(ParseKind::Token) => "script token",
            PlanKind::Script(ParseKind::Range) => "script range",
            PlanKind::Script(ParseKind::Syntax) => "script syntax",
            PlanKind::Script(ParseKind::Block) => "script block",
            PlanKind::Script(ParseKind::Depth) => "script depth",
            PlanKind::Script(ParseKind::Size) => "script size",
            PlanKind::End => "end",
        }
    }
}

/// Why bytes are no plan.
#[derive(Clone, Copy, Debug, PartialEq, Eq)]
pub enum PlanFault {
    /// The first line that isn't as a plan has it, counted from 1 from the plan's first line; 0 for
    /// the size.
    Fault { line: u32, kind: PlanKind },
    NoMemory,
}

impl From<AllocError> for PlanFault {
    ghost use Rattle.std.specs.Prelude.{◌≡◌};
    ghost use Rattle.plan_form.specs.declared.plan_faults.PlanFault.TheVariants.{NoMemory};

    ghost from_gives = { λ _ fault. fault ≡ NoMemory };

    fn from(_error: AllocError) -> PlanFault {
        PlanFault::NoMemory
    }
}

impl<T: Drop> From<AllocFailed<T>> for PlanFault {
    ghost use Rattle.std.specs.Prelude.{◌≡◌};
    ghost use Rattle.plan_form.specs.declared.plan_faults.PlanFault.TheVariants.{NoMemory};

    ghost from_gives = { λ _ fault. fault ≡ NoMemory };

    fn from(_error: AllocFailed<T>) -> PlanFault {
        PlanFault::NoMemory
    }
}
