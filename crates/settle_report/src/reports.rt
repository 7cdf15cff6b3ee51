//! The report.
ghost use Rattle.std.specs.Prelude.{◌≡◌, ◌≤◌, ◌^◌, length, IfOk};
ghost use Rattle.pseudo_time.specs.Lists.{Every};
ghost use Rattle.plan_form.specs.PlanTexts.{CanRun};
ghost use Rattle.trace_report.specs.Replays.{IsMoment, IsOnce, IsOpened};
ghost use Rattle.trace_report.specs.Reports.{logs_by};
ghost use Rattle.settle_report.specs.Texts as spec;

use crate::ledgers::ledgers_of;
use crate::texts::{push_head, push_open, push_repositories};
use crate::versions::HeldVersion;
use plan_form::Plan;
use report_writer::push_downs;
use std::alloc::{AllocError, Global};
use trace_report::{downs_of, logs};
use value_form::Bytes;
use world_core::{Opened, Trace};

/// The text of a settle, and how many versions are open.
#[derive(Debug, Drop)]
pub struct SettleReport {
    pub text: Bytes,
    pub undecided: u64,
}

// The report by the logs at the end of the trace.
fn report_by(
    alloc: Global,
    plan: &Plan,
    logs: &[Opened],
    trace: &Trace,
) -> Result<SettleReport, AllocError>
    ensures text { IfOk result (λ r. spec.IsSettleText plan.now (logs_by trace.now.opened) (logs_by logs.now) trace.now r.text) }
    ensures undecided { IfOk result (λ r. r.undecided ≡ length (spec.all_open plan.now (logs_by logs.now))) }
{
    let mut out = Vec::new(alloc);
    let mut undecided: Vec<HeldVersion> = Vec::new(alloc);
    push_head(alloc, &mut out, plan.repositories)?;
    push_repositories(
        alloc,
        &mut out,
        &mut undecided,
        plan.repositories,
        trace.opened.as_slice(),
        logs,
    )?;
    undecided.sort_unstable();
    let ledgers = ledgers_of(alloc, plan.repositories, logs)?;
    push_open(alloc, &mut out, ledgers.as_slice(), undecided.as_slice())?;
    let downs = downs_of(alloc, plan, trace)?;
    push_downs(alloc, &mut out, downs.as_slice())?;
    Ok(SettleReport {
        text: Bytes::of(out),
        undecided: undecided.len() as u64,
    })
}

/// The report of a settle from its trace alone: the logs at its end are found first.
///
/// Numbers of nodes are 1 to 16, no node is opened twice, the effects in the logs are in range, and no
/// moment is above 2^63. The cost is nearly linear in the effects of all logs.
pub fn settle_report(alloc: Global, plan: &Plan, trace: &Trace) -> Result<SettleReport, AllocError>
    requires whole { CanRun plan.now }
    requires opened { Every IsOpened trace.now.opened }
    requires once { IsOnce trace.now.opened }
    requires start { trace.now.start ≤ 2 ^ 63 }
    requires moments { Every IsMoment trace.now.entries }
    ensures text { IfOk result (λ r. spec.IsTextOf plan.now trace.now r.text) }
    ensures undecided { IfOk result (λ r. r.undecided ≡ spec.open_count plan.now trace.now) }
{
    let logs = logs(alloc, plan.run, plan.acts.as_slice(), trace)?;
    report_by(alloc, plan, logs.as_slice(), trace)
}
