//! What came of a settle is written, and its status found.
ghost use Rattle.std.specs.Prelude.{◌≡◌, ◌==◌, if◌then◌else◌};
ghost use Rattle.std.specs.List.{list_any};
ghost use Rattle.plan_form.specs.PlanTexts.{CanRun};
ghost use Rattle.world_core.specs.Legal.{JustNodes};
ghost use Rattle.world_core.specs.Walks as walks;
ghost use Rattle.run_command.specs.Tellings.{OfRun};
ghost use Rattle.run_command.specs.Written.{sinking};
ghost use Rattle.run_rounds.specs.Runs.{HasRanges};
ghost use Rattle.settle_command.specs.Tellings.{IsReported, TellsSettle};

use plan_form::Plan;
use run_command::write_all;
use run_rounds::{End, Told};
use settle_report::settle_report;
use std::alloc::Global;
use stream_port::Sink;
use world_core::{Entry, Trace};

// Whether a node goes down.
fn is_down(entry: &Entry) -> bool
    ensures { result ≡ walks.is_down entry.now }
{
    match entry {
        Entry::Down { node: _, cause: _ } => true,
        _ => false,
    }
}

// Whether a node is down.
fn some_down(entries: &[Entry]) -> bool
    ensures { result ≡ list_any walks.is_down entries.now }
{
    entries.iter().any(|entry| is_down(entry))
}

// The status of a settle whose report was written.
fn status_of(trace: &Trace, undecided: u64) -> u8
    ensures { result ≡ (if list_any walks.is_down trace.now.entries then 6 else (if undecided == 0 then 0 else 5)) }
{
    if some_down(trace.entries.as_slice()) {
        6
    } else if undecided == 0 {
        0
    } else {
        5
    }
}

// Writes the report of a settle. The answer is the status.
fn tell_report<O: Sink>(alloc: Global, plan: &Plan, trace: &Trace, sink: &mut O) -> u8
    requires plan { CanRun plan.now }
    requires nodes { JustNodes plan.now trace.now.opened }
    requires ranges { HasRanges trace.now }
    ensures { IsReported plan.now trace.now result
        (sinking (O.taken sink.old) (O.taken sink.new) (O.faults sink.old) (O.faults sink.new)) }
{
    let Ok(report) = settle_report(alloc, plan, trace) else {
        return 7;
    };
    if write_all(sink, report.text.as_slice()).is_err() {
        return 4;
    }
    status_of(trace, report.undecided)
}

/// Writes what came of a settle. The answer is the status, and the trace.
pub fn tell<O: Sink>(alloc: Global, plan: &Plan, end: End, sink: &mut O) -> (u8, Told)
    requires plan { CanRun plan.now }
    requires nodes { OfRun end (λ t. JustNodes plan.now t.opened) }
    requires ranges { OfRun end HasRanges }
    ensures { TellsSettle plan.now end result.0 result.1
        (sinking (O.taken sink.old) (O.taken sink.new) (O.faults sink.old) (O.faults sink.new)) }
{
    match end {
        End::Ran(told) => {
            let status = tell_report(alloc, plan, told.trace(), sink);
            (status, told)
        }
        // No broker's log is there to refuse the plan.
        End::Refused(_) => (7, Told::none(alloc)),
        End::NoMemory => (7, Told::none(alloc)),
    }
}
