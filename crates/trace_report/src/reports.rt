//! The report of a run.
ghost use Rattle.std.specs.Prelude.{◌≡◌, ◌≤◌, ◌^◌, Some, IfOk};
ghost use Rattle.pseudo_time.specs.Lists.{Every};
ghost use Rattle.plan_form.specs.PlanTexts.{CanRun};
ghost use Rattle.report_writer.specs.Standings.{count_of};
ghost use Rattle.report_writer.specs.declared.records.ActOutcome.TheVariants.{Open};
ghost use Rattle.trace_logs.specs.Replays.{IsOpened, IsOnce, IsMoment};
ghost use Rattle.trace_report.specs.Reports.{logs_by, open_acts, open_by, run_text, run_text_by};

use crate::finals::finals_of;
use crate::shown::acts_of_plan;
use crate::{begun_in, downs_of, wire_of};
use plan_form::Plan;
use report_writer::{ActOutcome, ActReport, Report, count_of, write_report};
use std::alloc::{AllocError, Global};
use trace_logs::logs;
use value_form::{Bytes, Items};
use world_core::{Opened, Trace};

/// A text on a run, and how many acts of its plan have no outcome.
#[derive(Debug, Drop)]
pub struct Reported {
    pub text: Bytes,
    pub unfinished: u64,
}

// How many acts have no outcome.
pub(crate) fn unfinished_of(acts: &[ActReport]) -> u64
    ensures { result ≡ count_of Open acts.now }
{
    count_of(ActOutcome::Open, acts) as u64
}

/// The report of a run by the durable logs of its nodes, each the first effect first, and by its
/// trace. A node that isn't in the list has an empty log.
///
/// It costs two readings of each log, which carry out no deed, a walk over the trace, and memory for
/// what it says.
pub fn report_by(
    alloc: Global,
    plan: &Plan,
    logs: &[Opened],
    trace: &Trace,
) -> Result<Reported, AllocError>
    requires { CanRun plan.now }
    ensures text { IfOk result (λ r. r.text ≡ run_text_by plan.now (logs_by logs.now) trace.now) }
    ensures unfinished { IfOk result (λ r. r.unfinished ≡ open_by plan.now (logs_by logs.now)) }
{
    let begun = begun_in(alloc, plan, logs)?;
    let finals = finals_of(alloc, plan, logs)?;
    let acts = acts_of_plan(alloc, plan, begun)?;
    let downs = downs_of(alloc, plan, trace)?;
    let unfinished = unfinished_of(acts.as_slice());
    let report = Report {
        run: plan.run,
        acts: Items::of(acts),
        finals: Items::of(finals),
        downs: Items::of(downs),
        wire: Some(wire_of(trace)),
    };
    let text = write_report(alloc, &report)?;
    Ok(Reported { text, unfinished })
}

/// The report of a run from its trace alone: the logs are found first.
///
/// Numbers of nodes are 1 to 16, no node is opened twice, the effects in the logs are in range, and no
/// moment is above 2^63.
pub fn report(alloc: Global, plan: &Plan, trace: &Trace) -> Result<Reported, AllocError>
    requires whole { CanRun plan.now }
    requires opened { Every IsOpened trace.now.opened }
    requires once { IsOnce trace.now.opened }
    requires start { trace.now.start ≤ 2 ^ 63 }
    requires moments { Every IsMoment trace.now.entries }
    ensures text { IfOk result (λ r. r.text ≡ run_text plan.now trace.now) }
    ensures unfinished { IfOk result (λ r. r.unfinished ≡ open_acts plan.now trace.now) }
{
    let logs = logs(alloc, plan.run, plan.acts.as_slice(), trace)?;
    report_by(alloc, plan, logs.as_slice(), trace)
}
