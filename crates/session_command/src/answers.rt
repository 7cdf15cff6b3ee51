//! A batch is answered.
ghost use Rattle.std.specs.Prelude.{◌≡◌, ◌≤◌, List, ℕ};
ghost use Rattle.plan_form.specs.PlanTexts.{CanRun};
ghost use Rattle.session_form.specs.Sessions.{line_of};
ghost use Rattle.session_command.specs.Judged.{Judged, RanAbove};
ghost use Rattle.session_command.specs.Kept.{IsKept};
ghost use Rattle.session_command.specs.Standings.{standing};

use crate::batches::run_above;
use crate::lines::tell_fault;
use crate::putting::put_back_after;
use command_words::Options;
use held_shelf::HoldingShelf;
use medium_port::{Medium, Shelf};
use plan_form::{Plan, PlanFault, parse};
use run_command::Finish;
use std::alloc::Global;
use std::sync::Wait;
use std::thread::Threads;
use stream_port::{Clock, Fates, Sink};

/// How many lines a plan's head has.
const HEAD_LINES: u32 = 4;

/// What an answer leaves.
#[derive(Drop)]
pub struct Answer<F, C> {
    /// As that of a run.
    pub status: u8,
    pub fates: F,
    pub clock: C,
}

// Runs the plan of a batch above the logs of its nodes, and puts the media back.
fn run_held<
    O: Sink,
    H: HoldingShelf,
    F: Fates + Drop + Send,
    C: Clock + Drop + Send,
    R: Threads + Wait + Sync,
>(
    rt: &R,
    alloc: Global,
    plan: Plan,
    options: Options,
    sink: &mut O,
    shelf: &mut H,
    fates: F,
    clock: C,
) -> Answer<F, C>
where
    H::Medium: Drop + Send,
    requires plan { CanRun plan }
    requires workers { 1 ≤ options.workers }
    ensures { RanAbove H.Shelf H.Medium.Medium options plan result.status
        (standing shelf.old (O.taken sink.old) (O.faults sink.old) (F.asked fates) (C.answers clock))
        (standing shelf.new (O.taken sink.new) (O.faults sink.new) (F.asked result.fates) (C.answers result.clock)) }
{
    let Finish {
        status,
        trace: _,
        media,
        fates,
        clock,
        votes: _,
    } = run_above(rt, alloc, plan, options, sink, shelf, fates, clock);
    let status = put_back_after(shelf, media.into_vec(), status);
    Answer {
        status,
        fates,
        clock,
    }
}

// The line of the session that is this line of a batch as a plan, when so many lines were before the batch.
fn session_line(before: u64, line: u32) -> u64
    ensures { result ≡ line_of before line }
{
    let inside = line.saturating_sub(HEAD_LINES).max(1);
    before.saturating_add(u64::from(inside))
}

/// Answers a batch, which is this text as a plan, or has a longer front of it than a plan may have, when so
/// many lines of the session were before it.
pub fn answer_batch<
    O: Sink,
    H: HoldingShelf,
    F: Fates + Drop + Send,
    C: Clock + Drop + Send,
    R: Threads + Wait + Sync,
>(
    rt: &R,
    alloc: Global,
    text: &[u8],
    before: u64,
    options: Options,
    sink: &mut O,
    shelf: &mut H,
    fates: F,
    clock: C,
) -> Answer<F, C>
where
    H::Medium: Drop + Send,
    requires workers { 1 ≤ options.workers }
    ensures { (whole : List ℕ) → IsKept text.now whole →
        Judged H.Shelf H.Medium.Medium options whole before result.status
        (standing shelf.old (O.taken sink.old) (O.faults sink.old) (F.asked fates) (C.answers clock))
        (standing shelf.new (O.taken sink.new) (O.faults sink.new) (F.asked result.fates) (C.answers result.clock)) }
{
    match parse(alloc, text) {
        Ok(plan) => run_held(rt, alloc, plan, options, sink, shelf, fates, clock),
        Err(PlanFault::Fault { line, kind }) => Answer {
            status: tell_fault(alloc, session_line(before, line), kind, sink),
            fates,
            clock,
        },
        Err(PlanFault::NoMemory) => Answer {
            status: 7,
            fates,
            clock,
        },
    }
}
