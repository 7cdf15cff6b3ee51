//! Why no value was read.
use std::alloc::AllocError;

/// Why no value was read.
#[derive(Clone, Copy, Debug, PartialEq, Eq)]
pub enum ValueFault {
    /// No front of the bytes is a value. The field that begins at this place is missing, cut short
    /// or out of range.
    Form(usize),
    /// Memory ran out.
    NoMemory,
}

impl From<AllocError> for ValueFault {
    ghost use Rattle.std.specs.Prelude.{◌≡◌};
    ghost use Rattle.value_form.specs.declared.value_faults.ValueFault.TheVariants.{NoMemory};

    ghost from_gives = { λ _ e. e ≡ NoMemory };

    fn from(_: AllocError) -> ValueFault {
        ValueFault::NoMemory
    }
}
