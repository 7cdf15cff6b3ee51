//! A run of a plan.
ghost use Rattle.std.specs.Prelude.{◌≡◌, ◌≤◌, ◌<◌, ℕ, List, [], length, map, vec_len, vec_capacity, slice_get, Option, Some, All};
ghost use Rattle.std.specs.List.{AllZip};
ghost use Rattle.seat_lock.specs.Words.{base_of};
ghost use Rattle.plan_form.specs.PlanTexts.{CanRun};
ghost use Rattle.run_starts.specs.Sights.{IsWirePass};
ghost use Rattle.run_media.specs.Openings.{HasOpened, IsOpen, medium_in};
ghost use Rattle.run_starts.specs.Seats.{IsSound};
ghost use Rattle.run_media.specs.Places.{node_count};
ghost use Rattle.run_rounds.specs.Begins.{HasBegun, IsRunnable};
ghost use Rattle.run_rounds.specs.Ends.{IsOver, IsUnopened};
ghost use Rattle.run_rounds.specs.Finishes.{EndsAs, EndsTo, IsEndFor, tellers};
ghost use Rattle.run_rounds.specs.Goals.{HasWorkers};

use crate::courses::rounds;
use crate::ends::{End, Ended, Finished, closed_run};
use crate::goals::Course;
use medium_port::Medium;
use plan_form::Plan;
use run_media::{Opening, Refusal, are_open, first_refusal, give_back};
use run_starts::{
    Begun, Limits, Reason, Seated, SharedWire, WirePass, down_visits, empty_shares, let_go,
    open_nodes, wire_for,
};
use std::alloc::Global;
use std::sync::Wait;
use std::thread::Threads;
use stream_port::{Clock, Fates};
use value_form::Items;

// The end of a run that didn't begin.
fn refused(refusal: Refusal) -> End
    ensures { IsEndFor refusal result }
{
    match refusal {
        Refusal::Resume(fault) => End::Refused(fault),
        Refusal::NoMemory => End::NoMemory,
    }
}

// A run that didn't begin hands its media back.
fn unbegun<F, C, M: Medium>(
    end: End,
    media: Vec<Option<M>>,
    openings: Vec<Opening<M>>,
    fates: F,
    clock: C,
) -> Finished<F, C, M>
    requires empty { media.items ≡ [] }
    requires room { vec_len openings ≤ vec_capacity media }
    ensures end { result.end ≡ end }
    ensures media { result.media ≡ map medium_in openings.items }
    ensures told { (result.fates ≡ fates) × (result.clock ≡ clock) }
{
    Finished {
        end,
        media: Items::of(give_back(media, openings)),
        fates,
        clock,
    }
}

// How many threads give the nodes their turns.
fn workers_of(course: Course) -> usize
    requires { HasWorkers course }
    ensures { 1 ≤ result }
{
    match course {
        Course::Acts(limits) => limits.workers,
        Course::Settling => 1,
    }
}

// Opens the nodes, and lets them go on.
fn with_nodes<
    F: Fates + Drop + Send,
    C: Clock + Drop + Send,
    M: Medium + Drop + Send,
    R: Threads + Wait + Sync,
>(
    rt: &R,
    alloc: Global,
    plan: &Plan,
    course: Course,
    begun: Begun<F, C, M>,
    openings: Vec<Opening<M>>,
    media: Vec<Option<M>>,
) -> Finished<F, C, M>
    requires runnable { IsRunnable plan.now openings.items }
    requires begun { HasBegun plan.now openings.items begun.wire.lock begun.start begun.passes.items
        begun.conductor }
    requires pass_room { vec_len begun.passes < vec_capacity begun.passes }
    requires empty { media.items ≡ [] }
    requires room { vec_len openings ≤ vec_capacity media }
    requires workers { HasWorkers course }
    requires sound { All (IsSound M.Medium) openings.items }
    ensures { (first : List (Option M)) → AllZip (HasOpened M.Medium) first openings.items →
        EndsTo M.Medium (IsOver course plan.now) plan.now
        (tellers (base_of begun.wire.lock).origin.asked (F.asked result.fates) (base_of begun.wire.lock).origin.answers
        (C.answers result.clock)) first result.media result.end }
{
    let Begun {
        wire,
        passes,
        conductor,
        start,
    } = begun;
    let count = openings.len();
    let Ok((nodes, shares)) = empty_shares(alloc, workers_of(course), count) else {
        return stopped(wire, passes, conductor, give_back(media, openings));
    };
    let Seated {
        nodes,
        media,
        passes,
        is_whole,
    } = open_nodes(alloc, plan, start, openings, passes, nodes, media);
    if !is_whole {
        nodes.destroy_empty();
        let_go(shares);
        return stopped(wire, passes, conductor, media);
    }
    rounds(
        rt, alloc, wire, course, nodes, shares, conductor, media, passes,
    )
}

// Memory ran out before the first round.
fn stopped<F: Fates, C: Clock, M: Medium>(
    wire: SharedWire<F, C, M>,
    mut passes: Vec<WirePass<F, C, M>>,
    conductor: WirePass<F, C, M>,
    media: Vec<Option<M>>,
) -> Finished<F, C, M>
    requires passes { All (IsWirePass wire.lock) passes.items × IsWirePass wire.lock conductor }
    requires all { vec_len passes ≡ length (base_of wire.lock).origin.opened }
    requires room { vec_len passes < vec_capacity passes }
    ensures end { result.end ≡ End.NoMemory }
    ensures media { result.media ≡ media.items }
{
    passes.push_reserved(conductor);
    closed_run(
        wire,
        Ended {
            media,
            passes,
            reason: Reason::Wanting,
        },
    )
}

// No round follows where a node can't be opened.
fn without_nodes<F: Fates, C: Clock, M: Medium, R: Wait>(
    rt: &R,
    plan: &Plan,
    begun: Begun<F, C, M>,
    openings: Vec<Opening<M>>,
    media: Vec<Option<M>>,
) -> Finished<F, C, M>
    requires runnable { IsRunnable plan.now openings.items }
    requires begun { HasBegun plan.now openings.items begun.wire.lock begun.start begun.passes.items
        begun.conductor }
    requires pass_room { vec_len begun.passes < vec_capacity begun.passes }
    requires empty { media.items ≡ [] }
    requires room { vec_len openings ≤ vec_capacity media }
    requires shut { (place : _) × (opening : _) × (slice_get openings.items place ≡ Some opening) ×
        (IsOpen opening → ⊥) }
    ensures { (first : List (Option M)) → AllZip (HasOpened M.Medium) first openings.items →
        EndsTo M.Medium (IsUnopened plan.now) plan.now
        (tellers (base_of begun.wire.lock).origin.asked (F.asked result.fates) (base_of begun.wire.lock).origin.answers
        (C.answers result.clock)) first result.media result.end }
{
    let Begun {
        wire,
        passes,
        conductor,
        start: _,
    } = begun;
    let (mut passes, reason) = down_visits(rt, &wire, plan, openings.as_slice(), passes);
    passes.push_reserved(conductor);
    let ended = Ended {
        media: give_back(media, openings),
        passes,
        reason,
    };
    closed_run(wire, ended)
}

// Carries out a run of a plan, for its acts or to settle.
fn carry_out<
    F: Fates + Drop + Send,
    C: Clock + Drop + Send,
    M: Medium + Drop + Send,
    R: Threads + Wait + Sync,
>(
    rt: &R,
    alloc: Global,
    plan: &Plan,
    course: Course,
    openings: Vec<Opening<M>>,
    media: Vec<Option<M>>,
    fates: F,
    clock: C,
) -> Finished<F, C, M>
    requires plan { CanRun plan.now }
    requires count { length openings.items ≡ node_count plan.now }
    requires opened { (first : List (Option M)) × AllZip (HasOpened M.Medium) first openings.items }
    requires empty { media.items ≡ [] }
    requires room { vec_len openings ≤ vec_capacity media }
    requires workers { HasWorkers course }
    ensures { (first : List (Option M)) → AllZip (HasOpened M.Medium) first openings.items →
        EndsTo M.Medium (IsOver course plan.now) plan.now
        (tellers (F.asked fates) (F.asked result.fates) (C.answers clock) (C.answers result.clock)) first
        result.media result.end }
{
    if let Some(refusal) = first_refusal(alloc, plan, openings.as_slice()) {
        return unbegun(refused(refusal), media, openings, fates, clock);
    }
    match wire_for(alloc, plan, openings.as_slice(), fates, clock) {
        Err((fates, clock, _)) => unbegun(End::NoMemory, media, openings, fates, clock),
        Ok(begun) => {
            if are_open(openings.as_slice()) {
                with_nodes(rt, alloc, plan, course, begun, openings, media)
            } else {
                without_nodes(rt, plan, begun, openings, media)
            }
        }
    }
}

/// Runs a plan over what the media of its nodes were opened as, in the order of the nodes: repositories
/// first, rising. A medium that is missing couldn't be had. The emptied list has room for the media.
///
/// Where a node can't be opened its Down is reported, and no round follows. Where a broker's log shows a
/// later run or another plan, no run begins, and nothing is added to any log.
pub fn run<
    F: Fates + Drop + Send,
    C: Clock + Drop + Send,
    M: Medium + Drop + Send,
    R: Threads + Wait + Sync,
>(
    rt: &R,
    alloc: Global,
    plan: &Plan,
    limits: Limits,
    openings: Vec<Opening<M>>,
    media: Vec<Option<M>>,
    fates: F,
    clock: C,
) -> Finished<F, C, M>
    requires plan { CanRun plan.now }
    requires count { length openings.items ≡ node_count plan.now }
    requires opened { (first : List (Option M)) × AllZip (HasOpened M.Medium) first openings.items }
    requires empty { media.items ≡ [] }
    requires room { vec_len openings ≤ vec_capacity media }
    requires workers { 1 ≤ limits.workers }
    ensures { (first : List (Option M)) → AllZip (HasOpened M.Medium) first openings.items →
        EndsAs M.Medium limits.ticks limits.messages plan.now
        (tellers (F.asked fates) (F.asked result.fates) (C.answers clock) (C.answers result.clock)) first
        result.media result.end }
{
    carry_out(
        rt,
        alloc,
        plan,
        Course::Acts(limits),
        openings,
        media,
        fates,
        clock,
    )
}

/// Settles the repositories of a plan without acts, over what their media were opened as. Time passes
/// once, so that each repository lets expire what is due; then each learns what the homes of its versions
/// decided. No message is sent. The media are handed back as `run` does it, and so are nodes that can't be
/// opened.
pub fn settle<
    F: Fates + Drop + Send,
    C: Clock + Drop + Send,
    M: Medium + Drop + Send,
    R: Threads + Wait + Sync,
>(
    rt: &R,
    alloc: Global,
    plan: &Plan,
    openings: Vec<Opening<M>>,
    media: Vec<Option<M>>,
    fates: F,
    clock: C,
) -> Finished<F, C, M>
    requires plan { CanRun plan.now }
    requires count { length openings.items ≡ node_count plan.now }
    requires opened { (first : List (Option M)) × AllZip (HasOpened M.Medium) first openings.items }
    requires empty { media.items ≡ [] }
    requires room { vec_len openings ≤ vec_capacity media }
    ensures { (first : List (Option M)) → AllZip (HasOpened M.Medium) first openings.items →
        EndsTo M.Medium (IsOver Course.Settling plan.now) plan.now
        (tellers (F.asked fates) (F.asked result.fates) (C.answers clock) (C.answers result.clock)) first
        result.media result.end }
{
    carry_out(
        rt,
        alloc,
        plan,
        Course::Settling,
        openings,
        media,
        fates,
        clock,
    )
}
