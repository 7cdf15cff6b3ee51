//! Why no message was read.
use std::alloc::AllocError;

/// Why no message was read.
#[derive(Clone, Copy, Debug, PartialEq, Eq)]
pub enum MessageFault {
    /// The bytes aren't one message. The field that begins at this place is missing, cut short or out
    /// of range, or a whole message ends there and more bytes follow.
    Form { at: usize },
    /// Memory ran out.
    NoMemory,
}

impl From<AllocError> for MessageFault {
    ghost use Rattle.std.specs.Prelude.{◌≡◌};
    ghost use Rattle.message_form.specs.declared.faults.MessageFault.TheVariants.{NoMemory};

    ghost from_gives = { λ _ e. e ≡ NoMemory };

    fn from(_: AllocError) -> MessageFault {
        MessageFault::NoMemory
    }
}
