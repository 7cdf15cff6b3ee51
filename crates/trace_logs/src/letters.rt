//! The messages of a trace, by their numbers.
ghost use Rattle.std.specs.Prelude.{◌≡◌};
ghost use Rattle.std.specs.Option.{option_copied};
ghost use Rattle.world_core.specs.Walks.{numbered};

use message_form::Out;
use pseudo_time::NodeId;

/// A message that was sent, and by whom.
#[derive(Drop)]
pub struct SentMessage {
    pub from: NodeId,
    pub out: Out,
}

/// The message with this number, counted from 1. None where none has it.
pub fn letter_at(letters: &[SentMessage], number: u32) -> Option<&SentMessage>
    ensures { option_copied result ≡ numbered letters.now number }
{
    let index = number.checked_sub(1)?;
    letters.get(index as usize)
}
