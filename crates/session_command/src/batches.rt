//! The plan of a batch is run above all that the logs of its nodes have.
ghost use Rattle.std.specs.Prelude.{◌≤◌};
ghost use Rattle.plan_form.specs.PlanTexts.{CanRun};
ghost use Rattle.plan_volumes.specs.Shelves.{shelf_sight};
ghost use Rattle.run_rounds.specs.Finishes.{account_of, tellers};
ghost use Rattle.run_command.specs.Written.{sinking};
ghost use Rattle.session_command.specs.Above.{RunsAbove};

use crate::heights::heights_of;
use crate::lines::tell_full;
use command_words::Options;
use medium_port::{Medium, Shelf};
use plan_form::Plan;
use run_command::{Finish, Wanted, hand_back, laws_of_runs, quiet, run_taken, take_volumes};
use session_form::{has_room, raised};
use std::alloc::Global;
use std::sync::Wait;
use std::thread::Threads;
use stream_port::{Clock, Fates, Sink};

/// Takes the volumes of the plan's nodes, runs it above their logs over one of each, and writes what came of
/// it.
pub fn run_above<
    O: Sink,
    S: Shelf,
    F: Fates + Drop + Send,
    C: Clock + Drop + Send,
    R: Threads + Wait + Sync,
>(
    rt: &R,
    alloc: Global,
    draft: Plan,
    options: Options,
    sink: &mut O,
    shelf: &mut S,
    fates: F,
    clock: C,
) -> Finish<S::Medium, F, C>
where
    S::Medium: Drop + Send,
    requires plan { CanRun draft }
    requires workers { 1 ≤ options.workers }
    ensures { RunsAbove S.Medium.Medium (shelf_sight S.Shelf shelf.old) (shelf_sight S.Shelf shelf.new)
        result.media draft options
        (account_of result.trace (tellers (F.asked fates) (F.asked result.fates) (C.answers clock)
        (C.answers result.clock)))
        (sinking (O.taken sink.old) (O.taken sink.new) (O.faults sink.old) (O.faults sink.new)) result.status }
{
    let Ok(taken) = take_volumes(alloc, &draft, shelf) else {
        return quiet(alloc, 7, Vec::new(alloc), fates, clock);
    };
    let heights = heights_of(taken.openings.as_slice());
    if !has_room(heights) {
        let status = tell_full(alloc, sink);
        return quiet(alloc, status, hand_back(&draft, taken), fates, clock);
    }
    let plan = raised(draft, heights);
    laws_of_runs();
    run_taken(
        rt,
        alloc,
        &plan,
        options,
        Wanted::Report,
        sink,
        taken,
        fates,
        clock,
    )
}
