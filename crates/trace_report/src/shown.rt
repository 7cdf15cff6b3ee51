//! Acts and attempts, as a report shows them.
ghost use Rattle.std.specs.Prelude.{◌≡◌, List, Some, map, IfOk};
ghost use Rattle.effect_form.specs.declared.effects.Effect.{Effect};
ghost use Rattle.pseudo_time.specs.declared.nodes.NodeId.{NodeId};
ghost use Rattle.pseudo_time.specs.Lists.{Every};
ghost use Rattle.plan_form.specs.PlanTexts.{CanRun};
ghost use Rattle.value_form.specs.Ranges.{IsScript};
ghost use Rattle.trace_report.specs.Acts.{acts_shown};
ghost use Rattle.trace_report.specs.Acts as acts;
ghost use Rattle.trace_report.specs.Begun.{ActParts, act_parts, kept, kept_try};
ghost use Rattle.trace_report.specs.Books.{begun_to};
ghost use Rattle.trace_report.specs.Shown as spec;
ghost use Rattle.trace_report.specs.Shown.{HasActs};

use crate::{BegunAct, BegunTry, transcript};
use effect_form::Outcome;
use plan_form::Plan;
use pseudo_time::PseudoTime;
use report_writer::{ActReport, TryOutcome, TryReport};
use std::alloc::{AllocError, Global};
use std::collections::BTreeMap;
use value_form::{ActSpec, Items, ObjectId, Script};

// A write was refused: the version before it was read up to `end`.
fn later_read(object: ObjectId, end: PseudoTime) -> TryOutcome
    ensures { result ≡ TryOutcome.LaterRead object end }
{
    TryOutcome::LaterRead { object, end }
}

// A write was refused: a version starts at `start`, not before it.
fn later_version(object: ObjectId, start: PseudoTime) -> TryOutcome
    ensures { result ≡ TryOutcome.LaterVersion object start }
{
    TryOutcome::LaterVersion { object, start }
}

// How an attempt ended. An act is spent, and no attempt is.
fn ended(outcome: Outcome) -> TryOutcome
    ensures { result ≡ acts.shown_end (Some outcome) }
{
    match outcome {
        Outcome::Committed => TryOutcome::Committed,
        Outcome::Withdrawn { line } => TryOutcome::Withdrawn { line },
        Outcome::Failed { line, kind } => TryOutcome::Failed { line, kind },
        Outcome::LaterRead { object, end } => later_read(object, end),
        Outcome::LaterVersion { object, start } => later_version(object, start),
        Outcome::Expired { deadline, moment } => TryOutcome::Expired { deadline, moment },
        Outcome::Spent { clock: _ } => TryOutcome::Open,
    }
}

// As far as its broker's log says.
fn outcome_of(end: Option<Outcome>) -> TryOutcome
    ensures { result ≡ acts.shown_end end }
{
    match end {
        None => TryOutcome::Open,
        Some(outcome) => ended(outcome),
    }
}

// An attempt, with its transcript.
fn try_of(alloc: Global, script: &Script, attempt: &BegunTry) -> Result<TryReport, AllocError>
    requires { IsScript script.now.lines }
    ensures { IfOk result (λ shown. shown ≡ spec.try_told script.now.lines (kept_try attempt.now)) }
{
    let lines = transcript(alloc, script, attempt.answers.as_slice())?;
    Ok(TryReport {
        stamp: attempt.stamp,
        outcome: outcome_of(attempt.end),
        lines,
    })
}

// Attempts, in order.
fn tries_of(
    alloc: Global,
    script: &Script,
    tries: &[BegunTry],
) -> Result<Vec<TryReport>, AllocError>
    requires { IsScript script.now.lines }
    ensures { IfOk result (λ shown. shown.items ≡ map
        (λ attempt. spec.try_told script.now.lines (kept_try attempt)) tries.now) }
{
    let mut shown = Vec::new(alloc);
    for attempt in tries {
        shown.push(try_of(alloc, script, attempt)?)?;
    }
    Ok(shown)
}

// An act with these attempts.
fn act_with(act: &ActSpec, tries: Vec<TryReport>, spent: Option<u64>) -> ActReport
    ensures { result ≡ record {
      index = act.now.index;
      broker = act.now.broker;
      home = act.now.home;
      allowed = act.now.tries;
      tries = tries.items;
      spent = spent;
    } }
{
    ActReport {
        index: act.index,
        broker: act.broker,
        home: act.home,
        allowed: act.tries,
        tries: Items::of(tries),
        spent,
    }
}

// An act, with what was begun of it.
fn act_of(
    alloc: Global,
    act: &ActSpec,
    begun: &BTreeMap<u32, BegunAct>,
) -> Result<ActReport, AllocError>
    requires { IsScript act.now.script.lines }
    ensures { IfOk result (λ shown. shown ≡ spec.act_told act.now (spec.begun_at begun.now.entries act.now.index)) }
{
    match begun.get(&act.index) {
        None => Ok(act_with(act, Vec::new(alloc), None)),
        Some(begun) => {
            let tries = tries_of(alloc, &act.script, begun.tries.as_slice())?;
            Ok(act_with(act, tries, begun.spent))
        }
    }
}

// The acts by their indexes. Of two with one index the later counts.
fn by_index(alloc: Global, begun: Vec<BegunAct>) -> Result<BTreeMap<u32, BegunAct>, AllocError>
    ensures { IfOk result (λ map. HasActs (kept begun.items) map.entries) }
{
    let mut map = BTreeMap::new(alloc);
    for act in begun {
        map.insert(act.index, act)?;
    }
    Ok(map)
}

// Acts of a plan, each with what was begun of it.
fn told_acts(
    alloc: Global,
    acts: &[ActSpec],
    begun: Vec<BegunAct>,
) -> Result<Vec<ActReport>, AllocError>
    requires { Every (λ act. IsScript act.script.lines) acts.now }
    ensures { IfOk result (λ shown. shown.items ≡ map
        (λ act. spec.act_told act (spec.part_at act.index (kept begun.items))) acts.now) }
{
    let begun = by_index(alloc, begun)?;
    let mut shown = Vec::new(alloc);
    for act in acts {
        shown.push(act_of(alloc, act, &begun)?)?;
    }
    Ok(shown)
}

/// The acts of a plan, as the logs tell them whose begun acts these are.
pub fn acts_of_plan(
    alloc: Global,
    plan: &Plan,
    begun: Vec<BegunAct>,
) -> Result<Vec<ActReport>, AllocError>
    requires { CanRun plan.now }
    ensures { (logs : NodeId → List Effect) →
        kept begun.items ≡ map act_parts (begun_to plan.now logs plan.now.brokers) →
        IfOk result (λ shown. shown.items ≡ acts_shown plan.now logs) }
{
    told_acts(alloc, plan.acts.as_slice(), begun)
}
