//! The call.
ghost use Rattle.std.specs.Prelude.{◌≡◌, ◌≤◌, [], true, length, map, List, Option, vec_len, vec_capacity};
ghost use Rattle.std.specs.List.{AllZip};
ghost use Rattle.plan_form.specs.PlanTexts.{CanRun};
ghost use Rattle.plan_volumes.specs.Kept.{AllKept};
ghost use Rattle.plan_volumes.specs.Openings.{HasOpened, medium_in};
ghost use Rattle.plan_volumes.specs.Places as order;
ghost use Rattle.plan_volumes.specs.Shelves.{shelf_sight};
ghost use Rattle.plan_volumes.specs.Volumes.{NodeVolumes};
ghost use Rattle.run_command.specs.Takings.{AreTaken};
ghost use Rattle.run_command.specs.Written.{sinking};
ghost use Rattle.run_rounds.specs.Finishes.{EndsTo, account_of, tellers};
ghost use Rattle.run_rounds.specs.Stories.{no_trace};
ghost use Rattle.settle_command.specs.Contract.{IsOverAs, SettleEnds, SettlesAll};

use crate::plans::settle_plan;
use crate::tellings::tell;
use medium_port::{Medium, Shelf};
use plan_form::Plan;
use plan_volumes::{Opening, give_back, keep_nodes};
use run_command::{Finish, Taken, no_votes, quiet, take_volumes};
use run_rounds::{End, Finished, place_has_past};
use settle_law::law_of_settling;
use std::alloc::Global;
use std::sync::Wait;
use std::thread::Threads;
use stream_port::{Clock, Fates, Sink};
use value_form::Items;

// Settles over these openings, unless memory ran out for one of the volumes.
fn settle_opened<
    F: Fates + Drop + Send,
    C: Clock + Drop + Send,
    M: Medium + Drop + Send,
    R: Threads + Wait + Sync,
>(
    rt: &R,
    alloc: Global,
    plan: &Plan,
    wanting: bool,
    openings: Vec<Opening<M>>,
    media: Vec<Option<M>>,
    fates: F,
    clock: C,
) -> Finished<F, C, M>
    requires plan { CanRun plan.now }
    requires count { length openings.items ≡ order.node_count plan.now }
    requires opened { (first : List (Option M)) × AllZip (HasOpened M.Medium) first openings.items }
    requires empty { media.items ≡ [] }
    requires room { vec_len openings ≤ vec_capacity media }
    ensures ends { (first : List (Option M)) → AllZip (HasOpened M.Medium) first openings.items →
        EndsTo M.Medium (IsOverAs plan.now) plan.now
        (tellers (F.asked fates) (F.asked result.fates) (C.answers clock) (C.answers result.clock)) first
        result.media result.end }
    ensures memory { wanting ≡ true → (result.end ≡ End.NoMemory) × (result.media ≡ map medium_in openings.items) }
{
    if wanting {
        return Finished {
            end: End::NoMemory,
            media: Items::of(give_back(media, openings)),
            fates,
            clock,
        };
    }
    run_rounds::settle(rt, alloc, plan, openings, media, fates, clock)
}

// Settles over volumes that were taken for it, and writes what came of it.
fn settle_taken<
    O: Sink,
    M: Medium + Drop + Send,
    F: Fates + Drop + Send,
    C: Clock + Drop + Send,
    R: Threads + Wait + Sync,
>(
    rt: &R,
    alloc: Global,
    plan: &Plan,
    sink: &mut O,
    taken: Taken<M>,
    fates: F,
    clock: C,
) -> Finish<M, F, C>
    requires plan { CanRun plan.now }
    requires taken { (volumes : List (NodeVolumes M.Medium)) × AreTaken M.Medium plan.now volumes taken }
    ensures ends { (volumes : List (NodeVolumes M.Medium)) → AreTaken M.Medium plan.now volumes taken →
        SettleEnds M.Medium plan.now volumes taken.wanting
        (tellers (F.asked fates) (F.asked result.fates) (C.answers clock) (C.answers result.clock))
        result.trace result.media
        (sinking (O.taken sink.old) (O.taken sink.new) (O.faults sink.old) (O.faults sink.new)) result.status }
    ensures votes { result.votes ≡ no_trace }
{
    let Taken {
        openings,
        asides,
        wanting,
        media,
        kept,
    } = taken;
    let Finished {
        end,
        media,
        fates,
        clock,
    } = settle_opened(rt, alloc, plan, wanting, openings, media, fates, clock);
    let kept = keep_nodes(plan, asides, media.into_vec(), kept);
    let (status, trace) = tell(alloc, plan, end, sink);
    Finish {
        status,
        trace,
        media: Items::of(kept),
        fates,
        clock,
        votes: no_votes(alloc),
    }
}

/// Settles repositories 1 to this number: takes their volumes, lets expire what is due by the clock, lets each
/// learn what the homes of its versions decided, and writes what came of it. No broker is opened, and nothing
/// that is decided changes.
///
/// The status is 0 with nothing open, 5 with something open, 6 with a node down, 4 if the sink failed, and 7
/// if memory ran out.
pub fn settle<
    O: Sink,
    S: Shelf,
    F: Fates + Drop + Send,
    C: Clock + Drop + Send,
    R: Threads + Wait + Sync,
>(
    rt: &R,
    alloc: Global,
    repositories: u8,
    sink: &mut O,
    shelf: &mut S,
    fates: F,
    clock: C,
) -> Finish<S::Medium, F, C>
where
    S::Medium: Drop + Send,
    requires low { 1 ≤ repositories }
    requires high { repositories ≤ 16 }
    ensures settled { SettlesAll S.Medium.Medium
        (shelf_sight S.Shelf shelf.old)
        (shelf_sight S.Shelf shelf.new) result.media repositories
        (account_of result.trace (tellers (F.asked fates) (F.asked result.fates) (C.answers clock)
        (C.answers result.clock)))
        (sinking (O.taken sink.old) (O.taken sink.new) (O.faults sink.old) (O.faults sink.new)) result.status }
    ensures kept { AllKept (shelf_sight S.Shelf shelf.old)
        (shelf_sight S.Shelf shelf.new) result.media }
    ensures votes { result.votes ≡ no_trace }
{
    let plan = settle_plan(alloc, repositories);
    let Ok(taken) = take_volumes(alloc, &plan, shelf) else {
        return quiet(alloc, 7, Vec::new(alloc), fates, clock);
    };
    law_of_settling();
    place_has_past();
    settle_taken(rt, alloc, &plan, sink, taken, fates, clock)
}
