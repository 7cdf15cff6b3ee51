//! A plan is run over the volumes of its nodes.
ghost use Rattle.std.specs.Prelude.{◌≡◌, ◌≤◌, [], true, length, map, List, Option, vec_len, vec_capacity};
ghost use Rattle.std.specs.List.{AllZip};
ghost use Rattle.plan_form.specs.PlanTexts.{CanRun};
ghost use Rattle.plan_volumes.specs.Openings.{HasOpened, medium_in};
ghost use Rattle.plan_volumes.specs.Places as order;
ghost use Rattle.run_rounds.specs.Finishes.{EndsAs, account_of, tellers};
ghost use Rattle.run_rounds.specs.Stories.{no_trace};
ghost use Rattle.plan_volumes.specs.Kept.{AllKept};
ghost use Rattle.plan_volumes.specs.Shelves.{shelf_sight};
ghost use Rattle.plan_volumes.specs.Volumes.{NodeVolumes};
ghost use Rattle.run_command.specs.Contract.{RunsPlan};
ghost use Rattle.run_command.specs.Takings.{AreTaken, EndsOver};
ghost use Rattle.run_command.specs.Written.{sinking};

use crate::laws::laws_of_runs;
use crate::media::{Finish, no_votes, quiet};
use crate::reports::{Wanted, tell};
use crate::takings::{Taken, take_volumes};
use command_words::Options;
use medium_port::{Medium, Shelf};
use plan_form::Plan;
use plan_volumes::{Opening, give_back, keep_nodes};
use run_rounds::{End, Finished, Limits, run};
use std::alloc::Global;
use std::sync::Wait;
use std::thread::Threads;
use stream_port::{Clock, Fates, Sink};
use value_form::Items;

// Runs the plan over these openings, unless memory ran out for one of the nodes' volumes.
fn run_opened<
    F: Fates + Drop + Send,
    C: Clock + Drop + Send,
    M: Medium + Drop + Send,
    R: Threads + Wait + Sync,
>(
    rt: &R,
    alloc: Global,
    plan: &Plan,
    options: Options,
    wanting: bool,
    openings: Vec<Opening<M>>,
    media: Vec<Option<M>>,
    fates: F,
    clock: C,
) -> Finished<F, C, M>
    requires plan { CanRun plan.now }
    requires count { length openings.items ≡ order.node_count plan.now }
    requires opened { (first : List (Option M)) × AllZip (HasOpened M.Medium) first openings.items }
    requires empty { media.items ≡ [] }
    requires room { vec_len openings ≤ vec_capacity media }
    requires workers { 1 ≤ options.workers }
    ensures ends { (first : List (Option M)) → AllZip (HasOpened M.Medium) first openings.items →
        EndsAs M.Medium options.ticks options.messages plan.now
        (tellers (F.asked fates) (F.asked result.fates) (C.answers clock) (C.answers result.clock)) first
        result.media result.end }
    ensures memory { wanting ≡ true → (result.end ≡ End.NoMemory) × (result.media ≡ map medium_in openings.items) }
{
    if wanting {
        return Finished {
            end: End::NoMemory,
            media: Items::of(give_back(media, openings)),
            fates,
            clock,
        };
    }
    let limits = Limits {
        ticks: options.ticks,
        messages: options.messages,
        workers: options.workers,
    };
    run(rt, alloc, plan, limits, openings, media, fates, clock)
}

/// Runs the plan over volumes that were taken for it, and writes what came of it.
pub fn run_taken<
    O: Sink,
    M: Medium + Drop + Send,
    F: Fates + Drop + Send,
    C: Clock + Drop + Send,
    R: Threads + Wait + Sync,
>(
    rt: &R,
    alloc: Global,
    plan: &Plan,
    options: Options,
    wanted: Wanted,
    sink: &mut O,
    taken: Taken<M>,
    fates: F,
    clock: C,
) -> Finish<M, F, C>
    requires plan { CanRun plan.now }
    requires workers { 1 ≤ options.workers }
    requires taken { (volumes : List (NodeVolumes M.Medium)) × AreTaken M.Medium plan.now volumes taken }
    ensures ends { (volumes : List (NodeVolumes M.Medium)) → AreTaken M.Medium plan.now volumes taken →
        EndsOver M.Medium plan.now volumes wanted options taken.wanting
        (tellers (F.asked fates) (F.asked result.fates) (C.answers clock) (C.answers result.clock))
        result.trace result.media
        (sinking (O.taken sink.old) (O.taken sink.new) (O.faults sink.old) (O.faults sink.new)) result.status }
    ensures votes { result.votes ≡ no_trace }
{
    let Taken {
        openings,
        asides,
        wanting,
        media,
        kept,
    } = taken;
    let Finished {
        end,
        media,
        fates,
        clock,
    } = run_opened(
        rt, alloc, plan, options, wanting, openings, media, fates, clock,
    );
    let kept = keep_nodes(plan, asides, media.into_vec(), kept);
    let (status, trace) = tell(alloc, plan, wanted, end, sink);
    Finish {
        status,
        trace,
        media: Items::of(kept),
        fates,
        clock,
        votes: no_votes(alloc),
    }
}

/// Takes the volumes of the plan's nodes, runs it over one of each, and writes what came of it.
pub fn run_plan<
    O: Sink,
    S: Shelf,
    F: Fates + Drop + Send,
    C: Clock + Drop + Send,
    R: Threads + Wait + Sync,
>(
    rt: &R,
    alloc: Global,
    plan: &Plan,
    options: Options,
    wanted: Wanted,
    sink: &mut O,
    shelf: &mut S,
    fates: F,
    clock: C,
) -> Finish<S::Medium, F, C>
where
    S::Medium: Drop + Send,
    requires plan { CanRun plan.now }
    requires workers { 1 ≤ options.workers }
    ensures ran { RunsPlan S.Medium.Medium
        (shelf_sight S.Shelf shelf.old)
        (shelf_sight S.Shelf shelf.new) result.media plan.now wanted options
        (account_of result.trace (tellers (F.asked fates) (F.asked result.fates) (C.answers clock)
        (C.answers result.clock)))
        (sinking (O.taken sink.old) (O.taken sink.new) (O.faults sink.old) (O.faults sink.new)) result.status }
    ensures kept { AllKept (shelf_sight S.Shelf shelf.old)
        (shelf_sight S.Shelf shelf.new) result.media }
    ensures votes { result.votes ≡ no_trace }
{
    let Ok(taken) = take_volumes(alloc, plan, shelf) else {
        return quiet(alloc, 7, Vec::new(alloc), fates, clock);
    };
    laws_of_runs();
    run_taken(rt, alloc, plan, options, wanted, sink, taken, fates, clock)
}
