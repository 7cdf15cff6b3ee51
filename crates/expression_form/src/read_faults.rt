//! Why tokens are no expression.
use std::alloc::{AllocError, AllocFailed};

/// Why tokens were not read.
#[derive(Clone, Copy, Debug, PartialEq, Eq)]
pub enum ReadFault {
    /// They spell nothing of the kind.
    Syntax,
    /// They do, with an expression that is deeper than 16.
    Depth,
    /// Memory ran out.
    NoMemory,
}

impl From<AllocError> for ReadFault {
    ghost use Rattle.std.specs.Prelude.{◌≡◌};
    ghost use Rattle.expression_form.specs.declared.read_faults.ReadFault.TheVariants.{NoMemory};

    ghost from_gives = { λ _ e. e ≡ NoMemory };

    fn from(_: AllocError) -> ReadFault {
        ReadFault::NoMemory
    }
}
