//! The acts and attempts that a broker's log tells.
ghost use Rattle.std.specs.Prelude.{◌≡◌, ◌∷◌, [], None, OnOk};
ghost use Rattle.trace_report.specs.Begun as spec;
ghost use Rattle.trace_report.specs.Begun.{kept};
ghost use Rattle.trace_report.specs.Transcripts.{answer_of};

use crate::answers::Answered;
use effect_form::{Effect, Outcome};
use pseudo_time::Stamp;
use std::alloc::{AllocError, Global};

/// An attempt, as its broker's log tells it.
#[derive(Drop)]
pub struct BegunTry {
    pub stamp: Stamp,
    /// What it was answered, in order.
    pub answers: Vec<Answered>,
    /// None where the log has no End of it.
    pub end: Option<Outcome>,
}

/// An act that its broker has begun.
#[derive(Drop)]
pub struct BegunAct {
    pub index: u32,
    /// In order.
    pub tries: Vec<BegunTry>,
    /// The clock of its End Spent.
    pub spent: Option<u64>,
}

// An act is begun.
fn begin(alloc: Global, begun: &mut Vec<BegunAct>, index: u32) -> Result<(), AllocError>
    ensures { OnOk result (kept begun.new.items ≡ record {
      index = index;
      tries = [];
      spent = None;
    } ∷ kept begun.old.items) }
{
    begun.push(BegunAct {
        index,
        tries: Vec::new(alloc),
        spent: None,
    })?;
    Ok(())
}

// The last act is tried.
fn try_last(alloc: Global, begun: &mut Vec<BegunAct>, stamp: Stamp) -> Result<(), AllocError>
    ensures { OnOk result (kept begun.new.items ≡ spec.tried stamp (kept begun.old.items)) }
{
    let Some(mut act) = begun.pop() else {
        return Ok(());
    };
    act.tries.push(BegunTry {
        stamp,
        answers: Vec::new(alloc),
        end: None,
    })?;
    begun.push(act)?;
    Ok(())
}

// The last of these attempts got an answer.
fn gain(tries: &mut Vec<BegunTry>, answer: Answered) -> Result<(), AllocError>
    ensures { OnOk result (spec.kept_tries tries.new.items ≡ spec.on_first (spec.gained (answer_of answer))
        (spec.kept_tries tries.old.items)) }
{
    let Some(mut last) = tries.pop() else {
        return Ok(());
    };
    last.answers.push(answer)?;
    tries.push(last)?;
    Ok(())
}

// The last of these attempts ended.
fn finish(tries: &mut Vec<BegunTry>, outcome: Outcome) -> Result<(), AllocError>
    ensures { OnOk result (spec.kept_tries tries.new.items ≡ spec.on_first (spec.ended outcome)
        (spec.kept_tries tries.old.items)) }
{
    let Some(mut last) = tries.pop() else {
        return Ok(());
    };
    last.end = Some(outcome);
    tries.push(last)?;
    Ok(())
}

// The last attempt got an answer.
fn answer_last(begun: &mut Vec<BegunAct>, answer: Answered) -> Result<(), AllocError>
    ensures { OnOk result (kept begun.new.items ≡ spec.on_last (spec.gained (answer_of answer))
        (kept begun.old.items)) }
{
    let Some(mut act) = begun.pop() else {
        return Ok(());
    };
    gain(&mut act.tries, answer)?;
    begun.push(act)?;
    Ok(())
}

// The last attempt ended, or the last act is spent.
fn close(begun: &mut Vec<BegunAct>, outcome: Outcome) -> Result<(), AllocError>
    ensures { OnOk result (kept begun.new.items ≡ spec.closed outcome (kept begun.old.items)) }
{
    let Some(mut act) = begun.pop() else {
        return Ok(());
    };
    match outcome {
        Outcome::Spent { clock } => act.spent = Some(clock),
        _ => finish(&mut act.tries, outcome)?,
    }
    begun.push(act)?;
    Ok(())
}

/// Reads an effect that counts.
pub fn enter(alloc: Global, begun: &mut Vec<BegunAct>, effect: &Effect) -> Result<(), AllocError>
    ensures { OnOk result (kept begun.new.items ≡ spec.entered effect.now (kept begun.old.items)) }
{
    match effect {
        Effect::Run { .. } => {
            begun.clear();
            Ok(())
        }
        Effect::Act { index, .. } => begin(alloc, begun, *index),
        Effect::Try { stamp, .. } => try_last(alloc, begun, *stamp),
        Effect::Got { value, .. } => {
            let value = value.copy(alloc)?;
            answer_last(begun, Answered::Got(value))
        }
        Effect::Acked { .. } => answer_last(begun, Answered::Stored),
        Effect::End { outcome, .. } => close(begun, *outcome),
        _ => Ok(()),
    }
}
