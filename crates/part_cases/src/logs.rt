//! Logs, and what a retirement makes of them.

use case_words::{CaseFault, Subject, decision, number, object, stamp, time, told};
use effect_form::Effect;
use forward_copy::{Forward, forward};
use pseudo_time::PseudoTime;
use std::alloc::{AllocError, Global};
use value_form::Value;

fn put(name: &str, start: &str, value: &str) -> Result<Effect, CaseFault> {
    Ok(Effect::Put {
        object: object(name)?,
        start: time(start)?,
        value: Value::Number(i64::from(number::<u32>(value)?)),
    })
}

fn stretch(name: &str, at: &str) -> Result<Effect, CaseFault> {
    Ok(Effect::Stretch {
        object: object(name)?,
        at: time(at)?,
    })
}

fn begin(name: &str, deadline: &str) -> Result<Effect, CaseFault> {
    Ok(Effect::Begin {
        stamp: stamp(name)?,
        deadline: number(deadline)?,
    })
}

fn decide(name: &str, words: &[&str]) -> Result<Effect, CaseFault> {
    Ok(Effect::Decide {
        stamp: stamp(name)?,
        decision: decision(words)?,
    })
}

fn learn(name: &str, word: &str) -> Result<Effect, CaseFault> {
    Ok(Effect::Learn {
        stamp: stamp(name)?,
        committed: word == "committed",
    })
}

fn mark(at: &str) -> Result<Effect, CaseFault> {
    Ok(Effect::Mark { at: time(at)? })
}

// The effect that these words are.
fn effect(words: &[&str]) -> Result<Effect, CaseFault> {
    match words {
        ["put", name, start, value] => put(name, start, value),
        ["stretch", name, at] => stretch(name, at),
        ["begin", name, deadline] => begin(name, deadline),
        ["decide", name, words @ ..] => decide(name, words),
        ["learn", name, word] => learn(name, word),
        ["mark", at] => mark(at),
        ["whole"] => Ok(Effect::Whole),
        _ => Err(CaseFault::Line),
    }
}

// An effect that was dropped.
fn dropped(alloc: Global, effect: &Effect) -> Result<String, AllocError> {
    format!(in alloc; "  dropped {effect:?}\n")
}

// How many effects were kept, and those that were dropped.
fn parts(alloc: Global, parts: &Forward) -> Result<String, CaseFault> {
    let (kept, gone) = (parts.kept.len(), parts.dropped.len());
    let mut said = format!(in alloc; "  kept {kept} dropped {gone}\n")?;
    for effect in parts.dropped.as_slice() {
        said.push_str(dropped(alloc, effect)?.as_str())?;
    }
    Ok(said)
}

// What a retirement at this mark makes of the log.
fn retired(alloc: Global, log: &[Effect], at: PseudoTime) -> Result<String, CaseFault> {
    if at.step() != 1 {
        return Err(CaseFault::Line);
    }
    match forward(alloc, log, at) {
        Ok(forward) => parts(alloc, &forward),
        Err(fault) => told(alloc, &fault),
    }
}

// Adds the effect that these words are.
fn add(alloc: Global, log: &mut Vec<Effect>, words: &[&str]) -> Result<String, CaseFault> {
    log.push(effect(words)?)?;
    Ok(String::new(alloc))
}

/// Cases of a log.
#[derive(Drop)]
pub struct LogCases {
    log: Vec<Effect>,
}

impl Subject for LogCases {
    fn nothing(alloc: Global) -> LogCases {
        LogCases {
            log: Vec::new(alloc),
        }
    }

    fn carry_out(
        &mut self,
        alloc: Global,
        _line: &str,
        words: &[&str],
    ) -> Result<String, CaseFault> {
        match words {
            ["log"] => {
                self.log = Vec::new(alloc);
                Ok(String::new(alloc))
            }
            ["forward", at] => retired(alloc, self.log.as_slice(), time(at)?),
            _ => add(alloc, &mut self.log, words),
        }
    }
}
