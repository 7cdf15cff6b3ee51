//! Why a row doesn't go on a script.
use std::alloc::AllocError;

/// Why a row doesn't go on a script.
#[derive(Clone, Copy, Debug, PartialEq, Eq)]
pub enum BlockFault {
    /// `else` or `end` without its opening, or a second `else`.
    Block,
    /// It opens a block in 16 others.
    Depth,
    /// Memory ran out.
    NoMemory,
}

impl From<AllocError> for BlockFault {
    ghost use Rattle.std.specs.Prelude.{◌≡◌};
    ghost use Rattle.script_form.specs.declared.block_faults.BlockFault.TheVariants.{NoMemory};

    ghost from_gives = { λ _ e. e ≡ NoMemory };

    fn from(_: AllocError) -> BlockFault {
        BlockFault::NoMemory
    }
}
