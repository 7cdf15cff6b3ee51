//! Appends the text of a message.
ghost use Rattle.std.specs.Prelude.{◌≡◌, ◌++◌, ◌∷◌, OnOk, OnErr, IfOk};
ghost use Rattle.pseudo_time.specs.StampParts.{stamp_bytes};
ghost use Rattle.pseudo_time.specs.TimeParts.{time_bytes};
ghost use Rattle.value_form.specs.ValueBytes.{IsValue};
ghost use Rattle.message_form.specs.Messages.{IsMessage, message_bytes};
ghost use Rattle.message_form.specs.declared.messages.Message.TheVariants as variant;

use crate::messages::Message;
use field_form::{push_decision, push_stamp, push_time};
use pseudo_time::{Decision, PseudoTime, Stamp};
use std::alloc::{AllocError, Global};
use value_form::{ObjectId, Value, push_object_bytes};

// A tag and a stamp.
fn push_stamped(out: &mut Vec<u8>, tag: u8, stamp: Stamp) -> Result<(), AllocError>
    ensures { OnOk result (out.new.items ≡ out.old.items ++ tag ∷ stamp_bytes stamp) }
{
    out.push(tag)?;
    push_stamp(out, stamp)?;
    Ok(())
}

// A tag and a pseudotime.
fn push_timed(out: &mut Vec<u8>, tag: u8, at: PseudoTime) -> Result<(), AllocError>
    ensures { OnOk result (out.new.items ≡ out.old.items ++ tag ∷ time_bytes at) }
{
    out.push(tag)?;
    push_time(out, at)?;
    Ok(())
}

fn push_begin(out: &mut Vec<u8>, stamp: Stamp, timeout: u32) -> Result<(), AllocError>
    ensures { OnOk result (out.new.items ≡ out.old.items ++ message_bytes (variant.Begin stamp timeout)) }
{
    push_stamped(out, 1, stamp)?;
    out.extend_from_slice(&timeout.to_be_bytes())?;
    Ok(())
}

fn push_read(out: &mut Vec<u8>, at: PseudoTime, object: ObjectId) -> Result<(), AllocError>
    ensures { OnOk result (out.new.items ≡ out.old.items ++ message_bytes (variant.Read at object)) }
{
    push_timed(out, 3, at)?;
    push_object_bytes(out, object)?;
    Ok(())
}

fn push_value(
    alloc: Global,
    out: &mut Vec<u8>,
    at: PseudoTime,
    value: &Value,
) -> Result<(), AllocError>
    requires { IsValue value.now }
    ensures { OnOk result (out.new.items ≡ out.old.items ++ message_bytes (variant.Value at value.now)) }
{
    push_timed(out, 4, at)?;
    value.write(alloc, out)?;
    Ok(())
}

fn push_write(
    alloc: Global,
    out: &mut Vec<u8>,
    at: PseudoTime,
    object: ObjectId,
    value: &Value,
) -> Result<(), AllocError>
    requires { IsValue value.now }
    ensures { OnOk result (out.new.items ≡ out.old.items ++ message_bytes (variant.Write at object value.now)) }
{
    push_timed(out, 5, at)?;
    push_object_bytes(out, object)?;
    value.write(alloc, out)?;
    Ok(())
}

// A tag and two pseudotimes.
fn push_refusal(
    out: &mut Vec<u8>,
    tag: u8,
    at: PseudoTime,
    shown: PseudoTime,
) -> Result<(), AllocError>
    ensures { OnOk result (out.new.items ≡ out.old.items ++ tag ∷ (time_bytes at ++ time_bytes shown)) }
{
    push_timed(out, tag, at)?;
    push_time(out, shown)?;
    Ok(())
}

fn push_decided(out: &mut Vec<u8>, stamp: Stamp, decision: Decision) -> Result<(), AllocError>
    ensures { OnOk result (out.new.items ≡ out.old.items ++ message_bytes (variant.Decided stamp decision)) }
{
    push_stamped(out, 12, stamp)?;
    push_decision(out, decision)?;
    Ok(())
}

fn push_tell(out: &mut Vec<u8>, stamp: Stamp, committed: bool) -> Result<(), AllocError>
    ensures { OnOk result (out.new.items ≡ out.old.items ++ message_bytes (variant.Tell stamp committed)) }
{
    push_stamped(out, 14, stamp)?;
    out.push(if committed { 1 } else { 2 })?;
    Ok(())
}

// Room for the bytes of a message with a short text, so that they needn't grow.
const ROOM: usize = 32;

// The bytes of a message.
fn bytes_of(alloc: Global, message: &Message) -> Result<Vec<u8>, AllocError>
    requires { IsMessage message.now }
    ensures { IfOk result (λ v. v.items ≡ message_bytes message.now) }
{
    let mut out = Vec::with_capacity(alloc, ROOM)?;
    match message {
        Message::Begin { stamp, timeout } => push_begin(&mut out, *stamp, *timeout)?,
        Message::Begun { stamp } => push_stamped(&mut out, 2, *stamp)?,
        Message::Read { at, object } => push_read(&mut out, *at, *object)?,
        Message::Value { at, value } => push_value(alloc, &mut out, *at, value)?,
        Message::Write { at, object, value } => {
            push_write(alloc, &mut out, *at, *object, value)?
        }
        Message::Stored { at } => push_timed(&mut out, 6, *at)?,
        Message::LaterRead { at, end } => push_refusal(&mut out, 7, *at, *end)?,
        Message::LaterVersion { at, start } => push_refusal(&mut out, 8, *at, *start)?,
        Message::Ended { at } => push_timed(&mut out, 9, *at)?,
        Message::Commit { stamp } => push_stamped(&mut out, 10, *stamp)?,
        Message::Withdraw { stamp } => push_stamped(&mut out, 11, *stamp)?,
        Message::Decided { stamp, decision } => push_decided(&mut out, *stamp, *decision)?,
        Message::Ask { stamp } => push_stamped(&mut out, 13, *stamp)?,
        Message::Tell { stamp, committed } => push_tell(&mut out, *stamp, *committed)?,
    }
    Ok(out)
}

/// Appends the bytes of a message. Where memory runs out, `out` is as before.
pub fn write(alloc: Global, message: &Message, out: &mut Vec<u8>) -> Result<(), AllocError>
    requires { IsMessage message.now }
    ensures ok { OnOk result (out.new.items ≡ out.old.items ++ message_bytes message.now) }
    ensures err { OnErr result (out.new.items ≡ out.old.items) }
{
    let bytes = bytes_of(alloc, message)?;
    out.extend_from_slice(bytes.as_slice())
}
