//! What the words of a line name.
ghost use Rattle.std.specs.Prelude.{IfOk};
ghost use Rattle.value_form.specs.ObjectBytes.{IsObject};
ghost use Rattle.effect_form.specs.Effects.{AreEffects, IsEffect};
ghost use Rattle.message_form.specs.Messages.{IsMessage};

use crate::faults::CaseFault;
use effect_form::Effect;
use message_form::Message;
use pseudo_time::{Decision, NodeId, NodeKind, PseudoTime, Stamp};
use std::alloc::Global;
use std::str::FromStr;
use value_form::ObjectId;

/// A number, which a plain parse gives.
pub fn number<N: FromStr>(word: &str) -> Result<N, CaseFault>
where
    N::Err: Drop,
{
    match word.parse::<N>() {
        Ok(number) => Ok(number),
        Err(_) => Err(CaseFault::Line),
    }
}

/// A node, `repository 1` or `broker 1`.
pub fn node(kind: &str, word: &str) -> Result<NodeId, CaseFault> {
    let kind = match kind {
        "repository" => NodeKind::Repository,
        "broker" => NodeKind::Broker,
        _ => return Err(CaseFault::Line),
    };
    Ok(NodeId {
        kind,
        number: number(word)?,
    })
}

/// A stamp, `1.1.1`: its clock, its broker and its home.
pub fn stamp(word: &str) -> Result<Stamp, CaseFault> {
    let (clock, rest) = word.split_once('.').ok_or(CaseFault::Line)?;
    let (broker, home) = rest.split_once('.').ok_or(CaseFault::Line)?;
    Stamp::new(number(clock)?, number(broker)?, number(home)?).ok_or(CaseFault::Line)
}

/// A pseudotime, `1.1.1/2`: its stamp and its step.
pub fn time(word: &str) -> Result<PseudoTime, CaseFault> {
    let (name, step) = word.split_once('/').ok_or(CaseFault::Line)?;
    PseudoTime::new(stamp(name)?, number(step)?).ok_or(CaseFault::Line)
}

/// An object, `1.7`: its repository and its number.
pub fn object(word: &str) -> Result<ObjectId, CaseFault>
    ensures { IfOk result IsObject }
{
    let (repository, place) = word.split_once('.').ok_or(CaseFault::Line)?;
    let repository: u8 = number(repository)?;
    let number = number(place)?;
    if repository < 1 || repository > 16 {
        return Err(CaseFault::Line);
    }
    Ok(ObjectId { repository, number })
}

// How a record ran out, from its deadline and the moment.
fn expired(deadline: &str, moment: &str) -> Result<Decision, CaseFault> {
    Ok(Decision::Expired {
        deadline: number(deadline)?,
        moment: number(moment)?,
    })
}

/// A decision, `committed`, `withdrawn` or `expired DEADLINE MOMENT`.
pub fn decision(words: &[&str]) -> Result<Decision, CaseFault> {
    match words {
        ["committed"] => Ok(Decision::Committed),
        ["withdrawn"] => Ok(Decision::Withdrawn),
        ["expired", deadline, moment] => expired(deadline, moment),
        _ => Err(CaseFault::Line),
    }
}

/// The words, one behind the other.
pub fn joined(alloc: Global, words: &[&str]) -> Result<String, CaseFault> {
    let mut all = String::new(alloc);
    for word in words {
        all.push_str(word)?;
        all.push(' ')?;
    }
    Ok(all)
}

/// The bytes whose digits the words are, one behind the other.
pub fn bytes(alloc: Global, words: &[&str]) -> Result<Vec<u8>, CaseFault> {
    let mut all = Vec::new(alloc);
    for word in words {
        let Ok(more) = hex::decode(alloc, *word) else {
            return Err(CaseFault::Bytes);
        };
        all.extend_from_slice(more.as_slice())?;
    }
    Ok(all)
}

/// The message whose bytes the words are.
pub fn message(alloc: Global, words: &[&str]) -> Result<Message, CaseFault>
    ensures { IfOk result (λ m. IsMessage m) }
{
    let bytes = bytes(alloc, words)?;
    match message_form::read(alloc, bytes.as_slice()) {
        Ok(message) => Ok(message),
        Err(_) => Err(CaseFault::Message),
    }
}

/// A message and the node that it comes from, `KIND N HEX..`.
pub fn arrival(alloc: Global, words: &[&str]) -> Result<(NodeId, Message), CaseFault>
    ensures { IfOk result (λ a. IsMessage a.1) }
{
    let [kind, from, words @ ..] = words else {
        return Err(CaseFault::Line);
    };
    let message = message(alloc, words)?;
    Ok((node(kind, from)?, message))
}

/// The effect whose bytes the word is, with no back place.
pub fn effect(alloc: Global, word: &str) -> Result<Effect, CaseFault>
    ensures { IfOk result IsEffect }
{
    let bytes = bytes(alloc, &[word])?;
    match effect_form::read(alloc, bytes.as_slice()) {
        Ok((effect, None, _)) => Ok(effect),
        _ => Err(CaseFault::Effect),
    }
}

/// The effects whose bytes the words are, one a word.
pub fn effects(alloc: Global, words: &[&str]) -> Result<Vec<Effect>, CaseFault>
    ensures { IfOk result (λ v. AreEffects v.items) }
{
    let mut all = Vec::new(alloc);
    for word in words {
        let more = effect(alloc, word)?;
        all.push(more)?;
    }
    Ok(all)
}

/// The effects whose bytes the words of a text are.
pub fn log_of(alloc: Global, text: &str) -> Result<Vec<Effect>, CaseFault>
    ensures { IfOk result (λ v. AreEffects v.items) }
{
    let words: Vec<&str> = text.split_whitespace().collect(alloc)?;
    effects(alloc, words.as_slice())
}
