//! Reads a message from its text.
ghost use Rattle.std.specs.Prelude.{◌≡◌, ◌++◌, List, ℕ, Ok, length, IfOk};
ghost use Rattle.std.specs.Option.{option_map};
ghost use Rattle.field_form.specs.Decisions.{decision_at};
ghost use Rattle.field_form.specs.Times.{stamp_at, time_at};
ghost use Rattle.value_form.specs.ObjectBytes.{object_bytes_at};
ghost use Rattle.value_form.specs.ValueBytes.{value_at, found, field};
ghost use Rattle.effect_form.specs.Effects.{learned_at, timeout_at};
ghost use Rattle.effect_form.specs.Sequences.{whole_one, whole_two};
ghost use Rattle.message_form.specs.Messages.{IsMessage, message_bytes, write_at, message_of_tag, message_at, whole_message};
ghost use Rattle.message_form.specs.MessageReads.{Gives};
ghost use Rattle.message_form.specs.declared.messages.Message.TheVariants as variant;
ghost use Rattle.message_form.specs.declared.messages.Message.{Message};

use crate::faults::MessageFault;
use crate::messages::Message;
use field_form::{byte_in, byte_of, decision_of, stamp_of, time_of, u32_in};
use std::alloc::Global;
use value_form::{Value, ValueFault, object_bytes_of};

/// A message, and what follows it.
type Found<'a> = (Message, &'a [u8]);

fn learned_field(bytes: &[u8]) -> Option<(bool, &[u8])>
    ensures { option_map (λ p. (p.0, p.1.now)) result ≡ learned_at bytes.now }
{
    let Some((answer, rest)) = byte_in(1, 2, bytes) else {
        return None;
    };
    Some((answer == 1, rest))
}

// A value, as the one field that begins at this place.
fn value_field(alloc: Global, at: usize, bytes: &[u8]) -> Result<(Value, &[u8]), MessageFault>
    ensures { Gives (λ p. (p.0, p.1.now)) result (field at (found (value_at bytes.now))) }
{
    match Value::read(alloc, bytes) {
        Ok((value, count)) => Ok((value, &bytes[count..])),
        Err(ValueFault::Form(_)) => Err(MessageFault::Form { at }),
        Err(ValueFault::NoMemory) => Err(MessageFault::NoMemory),
    }
}

fn begin_of(bytes: &[u8]) -> Result<Found<'_>, MessageFault>
    ensures { Gives (λ p. (p.0, p.1.now)) result (whole_two 1 11 variant.Begin stamp_at timeout_at bytes.now) }
{
    let Some((stamp, rest)) = stamp_of(bytes) else {
        return Err(MessageFault::Form { at: 1 });
    };
    let Some((timeout, rest)) = u32_in(1, 1_000_000, rest) else {
        return Err(MessageFault::Form { at: 11 });
    };
    Ok((Message::Begin { stamp, timeout }, rest))
}

fn begun_of(bytes: &[u8]) -> Result<Found<'_>, MessageFault>
    ensures { Gives (λ p. (p.0, p.1.now)) result (whole_one 1 variant.Begun stamp_at bytes.now) }
{
    let Some((stamp, rest)) = stamp_of(bytes) else {
        return Err(MessageFault::Form { at: 1 });
    };
    Ok((Message::Begun { stamp }, rest))
}

fn read_of(bytes: &[u8]) -> Result<Found<'_>, MessageFault>
    ensures { Gives (λ p. (p.0, p.1.now)) result (whole_two 1 15 variant.Read time_at object_bytes_at bytes.now) }
{
    let Some((at, rest)) = time_of(bytes) else {
        return Err(MessageFault::Form { at: 1 });
    };
    let Some((object, rest)) = object_bytes_of(rest) else {
        return Err(MessageFault::Form { at: 15 });
    };
    Ok((Message::Read { at, object }, rest))
}

fn value_of(alloc: Global, bytes: &[u8]) -> Result<Found<'_>, MessageFault>
    ensures { Gives (λ p. (p.0, p.1.now)) result
        (whole_two 1 15 variant.Value time_at (λ b. found (value_at b)) bytes.now) }
{
    let Some((at, rest)) = time_of(bytes) else {
        return Err(MessageFault::Form { at: 1 });
    };
    let (value, rest) = value_field(alloc, 15, rest)?;
    Ok((Message::Value { at, value }, rest))
}

#[tactic(auto, unfolding(crate::specs::Messages::write_at))]
fn write_of(alloc: Global, bytes: &[u8]) -> Result<Found<'_>, MessageFault>
    ensures { Gives (λ p. (p.0, p.1.now)) result (write_at bytes.now) }
{
    let Some((at, rest)) = time_of(bytes) else {
        return Err(MessageFault::Form { at: 1 });
    };
    let Some((object, rest)) = object_bytes_of(rest) else {
        return Err(MessageFault::Form { at: 15 });
    };
    let (value, rest) = value_field(alloc, 20, rest)?;
    Ok((Message::Write { at, object, value }, rest))
}

fn stored_of(bytes: &[u8]) -> Result<Found<'_>, MessageFault>
    ensures { Gives (λ p. (p.0, p.1.now)) result (whole_one 1 variant.Stored time_at bytes.now) }
{
    let Some((at, rest)) = time_of(bytes) else {
        return Err(MessageFault::Form { at: 1 });
    };
    Ok((Message::Stored { at }, rest))
}

fn later_read_of(bytes: &[u8]) -> Result<Found<'_>, MessageFault>
    ensures { Gives (λ p. (p.0, p.1.now)) result (whole_two 1 15 variant.LaterRead time_at time_at bytes.now) }
{
    let Some((at, rest)) = time_of(bytes) else {
        return Err(MessageFault::Form { at: 1 });
    };
    let Some((end, rest)) = time_of(rest) else {
        return Err(MessageFault::Form { at: 15 });
    };
    Ok((Message::LaterRead { at, end }, rest))
}

fn later_version_of(bytes: &[u8]) -> Result<Found<'_>, MessageFault>
    ensures { Gives (λ p. (p.0, p.1.now)) result (whole_two 1 15 variant.LaterVersion time_at time_at bytes.now) }
{
    let Some((at, rest)) = time_of(bytes) else {
        return Err(MessageFault::Form { at: 1 });
    };
    let Some((start, rest)) = time_of(rest) else {
        return Err(MessageFault::Form { at: 15 });
    };
    Ok((Message::LaterVersion { at, start }, rest))
}

fn ended_of(bytes: &[u8]) -> Result<Found<'_>, MessageFault>
    ensures { Gives (λ p. (p.0, p.1.now)) result (whole_one 1 variant.Ended time_at bytes.now) }
{
    let Some((at, rest)) = time_of(bytes) else {
        return Err(MessageFault::Form { at: 1 });
    };
    Ok((Message::Ended { at }, rest))
}

fn commit_of(bytes: &[u8]) -> Result<Found<'_>, MessageFault>
    ensures { Gives (λ p. (p.0, p.1.now)) result (whole_one 1 variant.Commit stamp_at bytes.now) }
{
    let Some((stamp, rest)) = stamp_of(bytes) else {
        return Err(MessageFault::Form { at: 1 });
    };
    Ok((Message::Commit { stamp }, rest))
}

fn withdraw_of(bytes: &[u8]) -> Result<Found<'_>, MessageFault>
    ensures { Gives (λ p. (p.0, p.1.now)) result (whole_one 1 variant.Withdraw stamp_at bytes.now) }
{
    let Some((stamp, rest)) = stamp_of(bytes) else {
        return Err(MessageFault::Form { at: 1 });
    };
    Ok((Message::Withdraw { stamp }, rest))
}

fn decided_of(bytes: &[u8]) -> Result<Found<'_>, MessageFault>
    ensures { Gives (λ p. (p.0, p.1.now)) result (whole_two 1 11 variant.Decided stamp_at decision_at bytes.now) }
{
    let Some((stamp, rest)) = stamp_of(bytes) else {
        return Err(MessageFault::Form { at: 1 });
    };
    let Some((decision, rest)) = decision_of(rest) else {
        return Err(MessageFault::Form { at: 11 });
    };
    Ok((Message::Decided { stamp, decision }, rest))
}

fn ask_of(bytes: &[u8]) -> Result<Found<'_>, MessageFault>
    ensures { Gives (λ p. (p.0, p.1.now)) result (whole_one 1 variant.Ask stamp_at bytes.now) }
{
    let Some((stamp, rest)) = stamp_of(bytes) else {
        return Err(MessageFault::Form { at: 1 });
    };
    Ok((Message::Ask { stamp }, rest))
}

fn tell_of(bytes: &[u8]) -> Result<Found<'_>, MessageFault>
    ensures { Gives (λ p. (p.0, p.1.now)) result (whole_two 1 11 variant.Tell stamp_at learned_at bytes.now) }
{
    let Some((stamp, rest)) = stamp_of(bytes) else {
        return Err(MessageFault::Form { at: 1 });
    };
    let Some((committed, rest)) = learned_field(rest) else {
        return Err(MessageFault::Form { at: 11 });
    };
    Ok((Message::Tell { stamp, committed }, rest))
}

// What follows a tag.
#[tactic(auto, unfolding(crate::specs::Messages::message_of_tag))]
fn tagged(alloc: Global, tag: u8, rest: &[u8]) -> Result<Found<'_>, MessageFault>
    ensures { Gives (λ p. (p.0, p.1.now)) result (message_of_tag tag rest.now) }
{
    match tag {
        1 => begin_of(rest),
        2 => begun_of(rest),
        3 => read_of(rest),
        4 => value_of(alloc, rest),
        5 => write_of(alloc, rest),
        6 => stored_of(rest),
        7 => later_read_of(rest),
        8 => later_version_of(rest),
        9 => ended_of(rest),
        10 => commit_of(rest),
        11 => withdraw_of(rest),
        12 => decided_of(rest),
        13 => ask_of(rest),
        14 => tell_of(rest),
        _ => Err(MessageFault::Form { at: 0 }),
    }
}

// The message at the front, and what follows it.
#[tactic(auto, unfolding(crate::specs::Messages::message_at))]
fn message_of(alloc: Global, bytes: &[u8]) -> Result<Found<'_>, MessageFault>
    ensures { Gives (λ p. (p.0, p.1.now)) result (message_at bytes.now) }
{
    let Some((tag, rest)) = byte_of(bytes) else {
        return Err(MessageFault::Form { at: 0 });
    };
    tagged(alloc, tag, rest)
}

// The message that all of the bytes are.
fn whole_of(alloc: Global, bytes: &[u8]) -> Result<Message, MessageFault>
    ensures { Gives (λ m. m) result (whole_message bytes.now) }
{
    let (message, rest) = message_of(alloc, bytes)?;
    if rest.len() != 0 {
        let at = bytes.len().saturating_sub(rest.len());
        return Err(MessageFault::Form { at });
    }
    Ok(message)
}

/// Reads the message that all of the bytes are. `Form` has the place of the first field that is
/// missing, cut short or out of range, or else of the first byte behind a whole message; the tag is
/// the first field, at 0, and a value or a decision is one field.
pub fn read(alloc: Global, bytes: &[u8]) -> Result<Message, MessageFault>
    // What is read stands so in the bytes.
    ensures found { IfOk result (λ m. IsMessage m × (bytes.now ≡ message_bytes m)) }
    // What stands in the bytes is read, unless memory runs out.
    ensures only { (m : Message) → IsMessage m → bytes.now ≡ message_bytes m → Gives (λ x. x) result (Ok m) }
    // Where it isn't, at which place.
    ensures exact { Gives (λ m. m) result (whole_message bytes.now) }
{
    whole_of(alloc, bytes)
}

/// A law: no message's bytes begin another's, and each message has one text.
pub fn messages_apart()
    ensures { (a b : Message) (x y : List ℕ) → IsMessage a → IsMessage b → message_bytes a ++ x ≡ message_bytes b ++ y →
        (a ≡ b) × (x ≡ y) }
{}
