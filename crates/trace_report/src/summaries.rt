//! The summary of a run.
ghost use Rattle.std.specs.Prelude.{◌≡◌, ◌≤◌, ◌^◌, ◌++◌, None, IfOk, OnOk};
ghost use Rattle.pseudo_time.specs.Lists.{Every};
ghost use Rattle.plan_form.specs.PlanTexts.{CanRun};
ghost use Rattle.trace_logs.specs.Replays.{IsOpened, IsOnce, IsMoment};
ghost use Rattle.trace_report.specs.Reports as spec;
ghost use Rattle.trace_report.specs.Reports.{logs_by};

use crate::reports::{Reported, unfinished_of};
use crate::shown::acts_of_plan;
use crate::{begun_in, downs_of};
use plan_form::Plan;
use report_writer::{ActReport, TryOutcome, push_downs, push_named};
use std::alloc::{AllocError, Global};
use trace_logs::logs;
use value_form::{Bytes, Line, Value};
use world_core::{Opened, Trace};

// The value that a transcript prints last.
fn printed(alloc: Global, lines: &[Line]) -> Result<Option<Value>, AllocError>
    ensures { IfOk result (λ value. value ≡ spec.printed None lines.now) }
{
    let mut last = None;
    for line in lines {
        if let Line::Print(value) = line {
            last = Some(value.copy(alloc)?);
        }
    }
    Ok(last)
}

// What the last act printed last, if it is committed.
fn sum_of(alloc: Global, acts: &[ActReport]) -> Result<Option<Value>, AllocError>
    ensures { IfOk result (λ sum. sum ≡ spec.sum_in (spec.last_of (spec.tries_in (spec.last_of acts.now)))) }
{
    let Some(act) = acts.last() else {
        return Ok(None);
    };
    let Some(attempt) = act.tries.as_slice().last() else {
        return Ok(None);
    };
    match attempt.outcome {
        TryOutcome::Committed => printed(alloc, attempt.lines.as_slice()),
        _ => Ok(None),
    }
}

// Appends the line of the load.
fn push_load(alloc: Global, out: &mut Vec<u8>, seed: u64, count: u64) -> Result<(), AllocError>
    ensures { OnOk result (out.new.items ≡ out.old.items ++ spec.load_line seed count) }
{
    push_named(alloc, out, b"swallow load ", seed)?;
    push_named(alloc, out, b" ", count)?;
    out.push(b'\n')?;
    Ok(())
}

// Appends how many acts there are, and how many of them have no outcome.
fn push_acts(alloc: Global, out: &mut Vec<u8>, acts: u64, unfinished: u64) -> Result<(), AllocError>
    ensures { OnOk result (out.new.items ≡ out.old.items ++ spec.acts_line acts unfinished) }
{
    push_named(alloc, out, b"acts ", acts)?;
    push_named(alloc, out, b" open ", unfinished)?;
    out.push(b'\n')?;
    Ok(())
}

// Appends the line of the sum.
fn push_sum(alloc: Global, out: &mut Vec<u8>, sum: &Option<Value>) -> Result<(), AllocError>
    ensures { OnOk result (out.new.items ≡ out.old.items ++ spec.sum_text sum.now) }
{
    match sum {
        None => out.extend_from_slice(b"sum none\n"),
        Some(value) => {
            out.extend_from_slice(b"sum ")?;
            value.print(alloc, out)?;
            out.push(b'\n')?;
            Ok(())
        }
    }
}

/// The summary of a load by the durable logs of its nodes, each the first effect first, and by its
/// trace: how many acts have no outcome, what the last act printed last if it is committed, and the
/// nodes that are down. The plan of a load has one act more than its count.
pub fn summary_by(
    alloc: Global,
    seed: u64,
    plan: &Plan,
    logs: &[Opened],
    trace: &Trace,
) -> Result<Reported, AllocError>
    requires { CanRun plan.now }
    ensures text { IfOk result (λ r. r.text ≡ spec.load_text_by seed plan.now (logs_by logs.now) trace.now) }
    ensures unfinished { IfOk result (λ r. r.unfinished ≡ spec.open_by plan.now (logs_by logs.now)) }
{
    let begun = begun_in(alloc, plan, logs)?;
    let acts = acts_of_plan(alloc, plan, begun)?;
    let downs = downs_of(alloc, plan, trace)?;
    let sum = sum_of(alloc, acts.as_slice())?;
    let unfinished = unfinished_of(acts.as_slice());
    let count = plan.acts.as_slice().len() as u64;
    let mut out = Vec::new(alloc);
    push_load(alloc, &mut out, seed, count.saturating_sub(1))?;
    push_acts(alloc, &mut out, count, unfinished)?;
    push_sum(alloc, &mut out, &sum)?;
    push_downs(alloc, &mut out, downs.as_slice())?;
    Ok(Reported {
        text: Bytes::of(out),
        unfinished,
    })
}

/// The summary of a load from its trace alone: the logs are found first.
///
/// Numbers of nodes are 1 to 16, no node is opened twice, the effects in the logs are in range, and no
/// moment is above 2^63.
pub fn summary(alloc: Global, seed: u64, plan: &Plan, trace: &Trace) -> Result<Reported, AllocError>
    requires whole { CanRun plan.now }
    requires opened { Every IsOpened trace.now.opened }
    requires once { IsOnce trace.now.opened }
    requires start { trace.now.start ≤ 2 ^ 63 }
    requires moments { Every IsMoment trace.now.entries }
    ensures text { IfOk result (λ r. r.text ≡ spec.load_text seed plan.now trace.now) }
    ensures unfinished { IfOk result (λ r. r.unfinished ≡ spec.open_acts plan.now trace.now) }
{
    let logs = logs(alloc, plan.run, plan.acts.as_slice(), trace)?;
    summary_by(alloc, seed, plan, logs.as_slice(), trace)
}
