//! What came of a run is written, and its status found.
ghost use Rattle.std.specs.Prelude.{◌≡◌, ◌≢◌, ◌==◌, ◌⊎◌, ℕ, IfOk, if◌then◌else◌};
ghost use Rattle.plan_form.specs.PlanTexts.{CanRun};
ghost use Rattle.world_core.specs.Legal.{JustNodes};
ghost use Rattle.run_rounds.specs.Reports.{open_acts};
ghost use Rattle.broker_core.specs.ResumeFault.TheVariants as resuming;
ghost use Rattle.run_rounds.specs.Ends as ends;
ghost use Rattle.run_rounds.specs.Runs.{HasRanges};
ghost use Rattle.run_command.specs.Lines as lines;
ghost use Rattle.run_command.specs.Tellings.{OfRun, TellsEnd, status_of, status_with, wanted_text};
ghost use Rattle.run_command.specs.Written.{EndsIfAny, GotLine, HasNoMemory, sinking};

use crate::lines::resume_line;
use crate::parts::is_down;
use crate::streams::write_all;
use broker_core::ResumeFault;
use plan_form::Plan;
use run_rounds::{End, Reported, Told, report, summary};
use std::alloc::{AllocError, Global};
use stream_port::Sink;
use world_core::{Entry, Trace};

/// Which text tells of a run.
#[derive(Clone, Copy)]
pub enum Wanted {
    Report,
    /// The summary of a load with this seed.
    Summary { seed: u64 },
}

// Whether a node is down.
fn some_down(entries: &[Entry]) -> bool
    ensures { result ≡ ends.some_down entries.now }
{
    entries.iter().any(|entry| is_down(entry))
}

// The status of a run whose text was written.
fn told_status(trace: &Trace, unfinished: u64) -> u8
    ensures { result ≡ status_with trace.now unfinished }
{
    if some_down(trace.entries.as_slice()) {
        6
    } else if unfinished == 0 {
        0
    } else {
        5
    }
}

// The text of a run.
fn text_of(
    alloc: Global,
    plan: &Plan,
    wanted: Wanted,
    trace: &Trace,
) -> Result<Reported, AllocError>
    requires plan { CanRun plan.now }
    requires nodes { JustNodes plan.now trace.now.opened }
    requires ranges { HasRanges trace.now }
    ensures text { IfOk result (λ r. r.text ≡ wanted_text wanted plan.now trace.now) }
    ensures unfinished { IfOk result (λ r. r.unfinished ≡ open_acts plan.now trace.now) }
{
    match wanted {
        Wanted::Report => report(alloc, plan, trace),
        Wanted::Summary { seed } => summary(alloc, seed, plan, trace),
    }
}

// Writes the text of a run. The answer is the status.
fn tell_run<O: Sink>(alloc: Global, plan: &Plan, wanted: Wanted, trace: &Trace, sink: &mut O) -> u8
    requires plan { CanRun plan.now }
    requires nodes { JustNodes plan.now trace.now.opened }
    requires ranges { HasRanges trace.now }
    ensures { EndsIfAny result (sinking (O.taken sink.old) (O.taken sink.new) (O.faults sink.old) (O.faults sink.new))
        (status_of plan.now trace.now)
        (wanted_text wanted plan.now trace.now) }
{
    let Ok(told) = text_of(alloc, plan, wanted, trace) else {
        return 7;
    };
    if write_all(sink, told.text.as_slice()).is_err() {
        return 4;
    }
    told_status(trace, told.unfinished)
}

// Writes why a broker's log refuses the plan. The answer is the status.
fn tell_refusal<O: Sink>(alloc: Global, fault: ResumeFault, sink: &mut O) -> u8
    ensures { HasNoMemory result (sinking (O.taken sink.old) (O.taken sink.new) (O.faults sink.old) (O.faults sink.new))
        ⊎ ((result ≡ 2) × GotLine (sinking (O.taken sink.old) (O.taken sink.new) (O.faults sink.old) (O.faults sink.new))
        (lines.resume_line fault)) }
{
    match resume_line(alloc, fault) {
        Ok(text) => {
            let _ = write_all(sink, text.as_slice());
            2
        }
        Err(_) => 7,
    }
}

/// Writes what came of a run. The answer is the status, and the trace.
pub fn tell<O: Sink>(
    alloc: Global,
    plan: &Plan,
    wanted: Wanted,
    end: End,
    sink: &mut O,
) -> (u8, Told)
    requires plan { CanRun plan.now }
    requires nodes { OfRun end (λ t. JustNodes plan.now t.opened) }
    requires ranges { OfRun end HasRanges }
    ensures { TellsEnd wanted plan.now end result.0 result.1
        (sinking (O.taken sink.old) (O.taken sink.new) (O.faults sink.old) (O.faults sink.new)) }
{
    match end {
        End::Ran(told) => {
            let status = tell_run(alloc, plan, wanted, told.trace(), sink);
            (status, told)
        }
        End::Refused(fault) => (tell_refusal(alloc, fault, sink), Told::none(alloc)),
        End::NoMemory => (7, Told::none(alloc)),
    }
}
