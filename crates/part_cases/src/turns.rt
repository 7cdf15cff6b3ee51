//! What a turn of a node gives.

use case_words::CaseFault;
use effect_form::Effect;
use message_form::{Out, Turn};
use pseudo_time::NodeKind;
use std::alloc::{AllocError, Global};

// An effect that a turn adds.
fn added(alloc: Global, effect: &Effect) -> Result<String, AllocError> {
    format!(in alloc; "  adds {effect:?}\n")
}

// A message that a turn sends.
fn sent(alloc: Global, out: &Out) -> Result<String, AllocError> {
    let kind = match out.to.kind {
        NodeKind::Repository => "repository",
        NodeKind::Broker => "broker",
    };
    format!(in alloc; "  to {kind} {} {:?}\n", out.to.number, out.message)
}

// The effects that a turn adds.
fn push_effects(alloc: Global, said: &mut String, effects: &[Effect]) -> Result<(), AllocError> {
    for effect in effects {
        said.push_str(added(alloc, effect)?.as_str())?;
    }
    Ok(())
}

// The messages that a turn sends.
fn push_outs(alloc: Global, said: &mut String, outs: &[Out]) -> Result<(), AllocError> {
    for out in outs {
        said.push_str(sent(alloc, out)?.as_str())?;
    }
    Ok(())
}

/// The effects that it adds, and the messages that it sends.
pub fn turn_text(alloc: Global, turn: &Turn) -> Result<String, CaseFault> {
    let mut said = String::new(alloc);
    push_effects(alloc, &mut said, turn.effects.as_slice())?;
    push_outs(alloc, &mut said, turn.outs.as_slice())?;
    Ok(said)
}
