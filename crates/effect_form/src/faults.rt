//! Why no effect was read.
use std::alloc::AllocError;

/// Why no effect was read.
#[derive(Clone, Copy, Debug, PartialEq, Eq)]
pub enum EffectFault {
    /// No front of the bytes is an effect. The field that begins at this place is missing, cut short
    /// or out of range.
    Form { at: usize },
    /// Memory ran out.
    NoMemory,
}

impl From<AllocError> for EffectFault {
    ghost use Rattle.std.specs.Prelude.{◌≡◌};
    ghost use Rattle.effect_form.specs.declared.faults.EffectFault.TheVariants.{NoMemory};

    ghost from_gives = { λ _ e. e ≡ NoMemory };

    fn from(_: AllocError) -> EffectFault {
        EffectFault::NoMemory
    }
}
