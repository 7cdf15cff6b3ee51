//! Forms in bytes: what is read from them, and the bytes that it is written as.

use case_words::CaseFault;
use effect_form::EffectFault;
use field_form::time_of;
use message_form::MessageFault;
use std::alloc::{AllocError, Global};
use value_form::{Value, ValueFault};

// These bytes, and how many others follow.
fn bytes_again(alloc: Global, bytes: &[u8], rest: usize) -> Result<String, AllocError> {
    let digits = hex::encode(alloc, bytes)?;
    if rest == 0 {
        format!(in alloc; "  bytes {}\n", digits.as_str())
    } else {
        format!(in alloc; "  bytes {} and {rest} more\n", digits.as_str())
    }
}

/// A pseudotime.
pub fn pseudotime(alloc: Global, bytes: &[u8]) -> Result<String, CaseFault> {
    let Some((time, rest)) = time_of(bytes) else {
        return Ok(format!(in alloc; "  none\n")?);
    };
    let stamp = time.stamp();
    let name = format!(in alloc;
        "  {}.{}.{}/{}\n",
        stamp.clock(),
        stamp.broker(),
        stamp.home(),
        time.step()
    )?;
    let mut said = name;
    said.push_str(bytes_again(alloc, &time.to_bytes(), rest.len())?.as_str())?;
    Ok(said)
}

/// A value.
pub fn value(alloc: Global, bytes: &[u8]) -> Result<String, CaseFault> {
    let (value, size) = match Value::read(alloc, bytes) {
        Ok(read) => read,
        Err(ValueFault::Form(at)) => return Ok(format!(in alloc; "  fault at {at}\n")?),
        Err(ValueFault::NoMemory) => return Err(CaseFault::NoMemory),
    };
    let mut said = String::new(alloc);
    let mut text = Vec::new(alloc);
    value.print(alloc, &mut text)?;
    push_text(&mut said, text.as_slice())?;
    let mut again = Vec::new(alloc);
    value.write(alloc, &mut again)?;
    let rest = bytes.len().saturating_sub(size);
    said.push_str(bytes_again(alloc, again.as_slice(), rest)?.as_str())?;
    Ok(said)
}

/// An effect, with its back place.
pub fn effect(alloc: Global, bytes: &[u8]) -> Result<String, CaseFault> {
    let (effect, back, size) = match effect_form::read(alloc, bytes) {
        Ok(read) => read,
        Err(EffectFault::Form { at }) => return Ok(format!(in alloc; "  fault at {at}\n")?),
        Err(EffectFault::NoMemory) => return Err(CaseFault::NoMemory),
    };
    let mut said = match back {
        None => format!(in alloc; "  {effect:?}\n")?,
        Some(back) => format!(in alloc; "  {effect:?} {back:?}\n")?,
    };
    let mut again = Vec::new(alloc);
    effect_form::write(alloc, &effect, back, &mut again)?;
    let rest = bytes.len().saturating_sub(size);
    said.push_str(bytes_again(alloc, again.as_slice(), rest)?.as_str())?;
    Ok(said)
}

/// A message.
pub fn message(alloc: Global, bytes: &[u8]) -> Result<String, CaseFault> {
    let message = match message_form::read(alloc, bytes) {
        Ok(message) => message,
        Err(MessageFault::Form { at }) => return Ok(format!(in alloc; "  fault at {at}\n")?),
        Err(MessageFault::NoMemory) => return Err(CaseFault::NoMemory),
    };
    let mut said = format!(in alloc; "  {message:?}\n")?;
    let mut again = Vec::new(alloc);
    message_form::write(alloc, &message, &mut again)?;
    said.push_str(bytes_again(alloc, again.as_slice(), 0)?.as_str())?;
    Ok(said)
}

// Where bytes that are no effect are at fault.
fn effect_fault(alloc: Global, bytes: &[u8]) -> Option<usize> {
    match effect_form::read(alloc, bytes) {
        Err(EffectFault::Form { at }) => Some(at),
        _ => None,
    }
}

// Where bytes that are no message are at fault.
fn message_fault(alloc: Global, bytes: &[u8]) -> Option<usize> {
    match message_form::read(alloc, bytes) {
        Err(MessageFault::Form { at }) => Some(at),
        _ => None,
    }
}

/// Where each beginning of these bytes is at fault, the empty one first.
pub fn cuts(alloc: Global, is_message: bool, bytes: &[u8]) -> Result<String, CaseFault> {
    let mut said = String::new(alloc);
    said.push(' ')?;
    for size in 0..bytes.len() {
        let fault = if is_message {
            message_fault(alloc, &bytes[..size])
        } else {
            effect_fault(alloc, &bytes[..size])
        };
        match fault {
            Some(at) => said.push_str(format!(in alloc; " {at}")?.as_str())?,
            None => said.push_str(" read")?,
        }
    }
    said.push('\n')?;
    Ok(said)
}

/// Writes a text, each line of it behind a bar.
pub fn push_text(said: &mut String, text: &[u8]) -> Result<(), AllocError> {
    let Ok(text) = std::str::from_utf8(text) else {
        return said.push_str("  no UTF-8\n");
    };
    for line in text.lines() {
        said.push_str("  |")?;
        said.push_str(line)?;
        said.push('\n')?;
    }
    Ok(())
}
