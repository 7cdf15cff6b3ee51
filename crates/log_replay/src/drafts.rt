//! The attempts of a broker's log.
ghost use Rattle.std.specs.Prelude.{◌≡◌, false, Some, IfOk, OnOk, reverse, None};
ghost use Rattle.script_replay.specs.Attempts.{answer_of};
ghost use Rattle.log_replay.specs.Drafts as spec;

use effect_form::{Effect, Outcome};
use pseudo_time::Stamp;
use script_replay::Reply;
use std::alloc::{AllocError, Global};
use value_form::Bytes;

/// An attempt, with the text of its script.
#[derive(Drop)]
pub struct Draft {
    pub stamp: Stamp,
    pub text: Bytes,
    /// In the order in which it got them.
    pub replies: Vec<Reply>,
    /// None where the log has no End of it.
    pub ended: Option<Outcome>,
}

/// How far a log was read.
#[derive(Drop)]
pub struct Drafts {
    /// The attempts of all runs, in order.
    pub tries: Vec<Draft>,
    /// The text of the last act of the last run. None where that has no act.
    pub text: Option<Bytes>,
    /// Whether that act has an attempt.
    pub live: bool,
}

// An equal text, if there is one.
fn text_copy(alloc: Global, text: &Option<Bytes>) -> Result<Option<Bytes>, AllocError>
    ensures { IfOk result (λ t. t ≡ text.now) }
{
    match text {
        Some(text) => {
            let text = text.copy(alloc)?;
            Ok(Some(text))
        }
        None => Ok(None),
    }
}

impl Drafts {
    // Nothing was read.
    fn new(alloc: Global) -> Drafts
        ensures { spec.read_parts result ≡ spec.nothing_read }
    {
        Drafts {
            tries: Vec::new(alloc),
            text: None,
            live: false,
        }
    }

    // A run begins.
    fn begin_run(&mut self)
        ensures { spec.read_parts self.new ≡ record {
          text = None;
          live = false;
          tries = (spec.read_parts self.old).tries;
        } }
    {
        self.text = None;
        self.live = false;
    }

    // An act begins.
    fn begin_act(&mut self, text: Bytes)
        ensures { spec.read_parts self.new ≡ record {
          text = Some text;
          live = false;
          tries = (spec.read_parts self.old).tries;
        } }
    {
        self.text = Some(text);
        self.live = false;
    }

    // An attempt at the last act begins.
    fn begin_try(&mut self, alloc: Global, stamp: Stamp) -> Result<(), AllocError>
        ensures { OnOk result (spec.read_parts self.new ≡ spec.tried stamp self.old.text (spec.read_parts self.old)) }
    {
        let text = text_copy(alloc, &self.text)?;
        let Some(text) = text else {
            return Ok(());
        };
        self.tries.push(Draft {
            stamp,
            text,
            replies: Vec::new(alloc),
            ended: None,
        })?;
        self.live = true;
        Ok(())
    }

    // The last attempt got an answer.
    fn gain(&mut self, reply: Reply) -> Result<(), AllocError>
        ensures { OnOk result (spec.read_parts self.new ≡ spec.if_live (spec.gained (answer_of reply))
            (spec.read_parts self.old)) }
    {
        if !self.live {
            return Ok(());
        }
        let Some(mut last) = self.tries.pop() else {
            return Ok(());
        };
        last.replies.push(reply)?;
        self.tries.push(last)?;
        Ok(())
    }

    // The last attempt ended.
    fn finish(&mut self, outcome: Outcome) -> Result<(), AllocError>
        ensures { OnOk result (spec.read_parts self.new ≡ spec.if_live (spec.finished outcome)
            (spec.read_parts self.old)) }
    {
        if !self.live {
            return Ok(());
        }
        let Some(mut last) = self.tries.pop() else {
            return Ok(());
        };
        last.ended = Some(outcome);
        self.tries.push(last)?;
        Ok(())
    }

    // An End is read.
    fn close(&mut self, outcome: Outcome) -> Result<(), AllocError>
        ensures { OnOk result (spec.read_parts self.new ≡ spec.closed outcome (spec.read_parts self.old)) }
    {
        match outcome {
            Outcome::Spent { .. } => Ok(()),
            _ => self.finish(outcome),
        }
    }

    // Reads an effect.
    fn enter(&mut self, alloc: Global, effect: &Effect) -> Result<(), AllocError>
        ensures { OnOk result (spec.read_parts self.new ≡ spec.entered effect.now (spec.read_parts self.old)) }
    {
        match effect {
            Effect::Run { .. } => {
                self.begin_run();
                Ok(())
            }
            Effect::Act { script, .. } => {
                let text = script.copy(alloc)?;
                self.begin_act(text);
                Ok(())
            }
            Effect::Try { stamp, .. } => self.begin_try(alloc, *stamp),
            Effect::Got { value, .. } => {
                let value = value.copy(alloc)?;
                self.gain(Reply::Got(value))
            }
            Effect::Acked { .. } => self.gain(Reply::Stored),
            Effect::End { outcome, .. } => self.close(*outcome),
            _ => Ok(()),
        }
    }
}

/// The attempts of a log, which stands oldest first.
pub(crate) fn drafts_of(alloc: Global, log: &[Effect]) -> Result<Drafts, AllocError>
    ensures { IfOk result (λ d. spec.read_parts d ≡ spec.read_off (reverse log.now)) }
{
    let mut drafts = Drafts::new(alloc);
    for effect in log {
        drafts.enter(alloc, effect)?;
    }
    Ok(drafts)
}
