//! Messages as texts, and their copies.
ghost use Rattle.std.specs.Prelude.{◌≡◌, ◌-◌, ◌≤◌, Some, length, take, slice_get, IfOk};
ghost use Rattle.pseudo_time.specs.declared.nodes.NodeId.{NodeId};
ghost use Rattle.message_form.specs.Messages.{IsMessage, message_bytes};
ghost use Rattle.message_core.specs.Sound.{HasText, AllHaveText, WentTo};

use message_form::{Message, MessageFault, read, write};
use pseudo_time::NodeId;
use std::alloc::{AllocError, Global};
use value_form::Bytes;

/// A message that was sent, as its text.
#[derive(Debug, Drop)]
pub struct Letter {
    pub from: NodeId,
    pub to: NodeId,
    pub text: Bytes,
}

/// A copy that waits for a tick: the number of its message, and the node that it goes to.
#[derive(Clone, Copy, Debug, PartialEq, Eq)]
pub struct HeldCopy {
    pub number: u32,
    pub to: NodeId,
}

/// A copy of a message that arrived: the message's number, its sender and the message.
#[derive(Debug, Drop)]
pub struct Arrival {
    pub number: u32,
    pub from: NodeId,
    pub message: Message,
}

// A message as a letter.
pub fn letter_for(
    alloc: Global,
    from: NodeId,
    to: NodeId,
    message: &Message,
) -> Result<Letter, AllocError>
    requires { IsMessage message.now }
    ensures { IfOk result (λ letter. letter ≡ record { from = from; to = to; text = message_bytes message.now }) }
{
    let mut text = Vec::new(alloc);
    write(alloc, message, &mut text)?;
    let text = Bytes::of(text);
    Ok(Letter { from, to, text })
}

// The last letter is taken back.
pub fn forget_last(letters: &mut Vec<Letter>)
    ensures { letters.new.items ≡ take (length letters.old.items - 1) letters.old.items }
{
    letters.pop();
}

// The message of a letter.
fn message_of(alloc: Global, letter: &Letter) -> Result<Message, AllocError>
    requires { HasText letter.now }
    ensures in_range { IfOk result (λ m. IsMessage m) }
    ensures text { IfOk result (λ m. letter.now.text ≡ message_bytes m) }
{
    match read(alloc, letter.text.as_slice()) {
        Ok(message) => Ok(message),
        Err(MessageFault::NoMemory) => Err(AllocError),
        Err(MessageFault::Form { .. }) => unreachable!(),
    }
}

// What arrives with the copy of this number.
pub fn arrival_of(alloc: Global, letters: &[Letter], number: u32) -> Result<Arrival, AllocError>
    requires from_one { 1 ≤ number }
    requires there { number ≤ length letters.now }
    requires texts { AllHaveText letters.now }
    ensures number { IfOk result (λ a. a.number ≡ number) }
    ensures letter { IfOk result (λ a. (node : NodeId) → WentTo letters.now node number →
        slice_get letters.now (number - 1) ≡ Some (record {
          from = a.from;
          to = node;
          text = message_bytes a.message;
        })) }
    ensures in_range { IfOk result (λ a. IsMessage a.message) }
{
    let letter = &letters[number as usize - 1];
    let message = message_of(alloc, letter)?;
    Ok(Arrival {
        number,
        from: letter.from,
        message,
    })
}
