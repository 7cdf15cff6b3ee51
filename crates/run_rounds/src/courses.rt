//! The course of a run whose nodes were all opened.
ghost use Rattle.std.specs.Prelude.{◌≡◌, ◌≤◌, ◌<◌, [], true, List, length, vec_len, vec_capacity, All, IsTrue};
ghost use Rattle.seat_lock.specs.Words.{base_of, knows};
ghost use Rattle.run_starts.specs.Sights.{IsWirePass};
ghost use Rattle.world_core.specs.Counts.{tick_count};
ghost use Rattle.run_starts.specs.Nodes.{HasAllOf, HasPass, IsReady, IsUp};
ghost use Rattle.run_starts.specs.TurnNodes.{NodeParts};
ghost use Rattle.run_rounds.specs.Closings.{HasClosed, HaveCome, HaveGoneOn, CourseEnds, RoundsEnd, SettlingEnds};
ghost use Rattle.run_rounds.specs.Settled.{AreSettled, IsToldIdle, SettledEnds};
ghost use Rattle.run_starts.specs.Deals.{IsDealt, HaveRoom};

use crate::ends::{Ended, Finished, closed_run};
use crate::goals::Course;
use crate::settled::{reason_of, settle_nodes};
use medium_port::Medium;
use run_starts::{
    Limits, Reason, RunNode, SharedWire, WirePass, collect, conduct, deal, let_go, pass_time,
    take_apart, turn_again,
};
use std::alloc::Global;
use std::sync::Wait;
use std::thread::Threads;
use stream_port::{Clock, Fates};

/// Nodes whose rounds have ended, the conductor's pass, and why no further round follows.
pub struct Gone<F: Fates, C: Clock, M: Medium> {
    pub nodes: Vec<RunNode<F, C, M>>,
    pub conductor: WirePass<F, C, M>,
    pub reason: Reason,
}

// Repositories settle if all brokers are done. Else nothing more happens.
fn settled<F: Fates, C: Clock, M: Medium, R: Wait>(
    rt: &R,
    alloc: Global,
    wire: &SharedWire<F, C, M>,
    gone: Gone<F, C, M>,
) -> Gone<F, C, M>
    requires passes { All (HasPass wire.now.lock) gone.nodes.items × IsWirePass wire.now.lock gone.conductor }
    requires up { gone.reason ≡ Reason.Done → All IsUp gone.nodes.items }
    requires all { All (HasAllOf (knows gone.conductor).story) gone.nodes.items }
    ensures passes { All (HasPass wire.now.lock) result.nodes.items × IsWirePass wire.now.lock result.conductor }
    ensures come { (limits : Limits) (begun : List (NodeParts M)) →
        HaveCome M.Medium limits begun gone.reason gone.nodes.items (knows gone.conductor) →
        HaveCome M.Medium limits begun result.reason result.nodes.items (knows result.conductor) }
    ensures on { (begun : List (NodeParts M)) →
        HaveGoneOn M.Medium begun gone.nodes.items (knows gone.conductor) →
        HaveGoneOn M.Medium begun result.nodes.items (knows result.conductor) }
    ensures ticks { tick_count (knows result.conductor).own ≡ tick_count (knows gone.conductor).own }
    ensures ends { SettledEnds gone.reason gone.nodes.items → SettledEnds result.reason result.nodes.items }
    ensures settled { IsTrue M.tells → result.reason ≡ Reason.Done → AreSettled result.nodes.items }
    ensures done { result.reason ≡ Reason.Done → gone.reason ≡ Reason.Done }
    ensures count { length result.nodes.items ≡ length gone.nodes.items }
{
    let Gone {
        mut nodes,
        mut conductor,
        reason,
    } = gone;
    let Reason::Done = reason else {
        return Gone {
            nodes,
            conductor,
            reason,
        };
    };
    let reason = settle_nodes(rt, alloc, wire, &mut nodes, &mut conductor);
    Gone {
        nodes,
        conductor,
        reason,
    }
}

// The nodes go on, node i with worker i mod W, until their acts are over. If all brokers are done, the
// repositories settle.
fn acted<
    F: Fates + Drop + Send,
    C: Clock + Drop + Send,
    M: Medium + Drop + Send,
    R: Threads + Wait + Sync,
>(
    rt: &R,
    alloc: Global,
    wire: &SharedWire<F, C, M>,
    limits: Limits,
    nodes: Vec<RunNode<F, C, M>>,
    shares: Vec<Vec<RunNode<F, C, M>>>,
    conductor: WirePass<F, C, M>,
) -> Gone<F, C, M>
    requires ready { All (IsReady wire.now.lock) nodes.items }
    requires some { 1 ≤ length shares.items }
    requires dealt { IsDealt (length shares.items) [] shares.items }
    requires share_room { (count : _) × (vec_len nodes ≤ count) × HaveRoom (length shares.items) count shares.items }
    requires pass { IsWirePass wire.now.lock conductor × ((knows conductor).owner ≡ 0) ×
        (tick_count (knows conductor).own ≡ 0) }
    ensures passes { All (HasPass wire.now.lock) result.nodes.items × IsWirePass wire.now.lock result.conductor }
    ensures on { HaveGoneOn M.Medium nodes.items result.nodes.items (knows result.conductor) }
    ensures ends { RoundsEnd M.tells limits result.reason result.nodes.items (knows result.conductor) }
    ensures count { length result.nodes.items ≡ length nodes.items }
{
    let count = nodes.len();
    let (nodes, shares) = deal(nodes, shares);
    let (shares, conductor, reason, _) = conduct(rt, wire, limits, shares, conductor);
    let nodes = collect(shares, count, nodes);
    settled(
        rt,
        alloc,
        wire,
        Gone {
            nodes,
            conductor,
            reason,
        },
    )
}

// The same again, after turns in which a node that was opened again while it learned hears the time again.
fn settled_again<F: Fates, C: Clock, M: Medium, R: Wait>(
    rt: &R,
    alloc: Global,
    wire: &SharedWire<F, C, M>,
    gone: Gone<F, C, M>,
) -> Gone<F, C, M>
    requires passes { All (HasPass wire.now.lock) gone.nodes.items × IsWirePass wire.now.lock gone.conductor }
    requires up { gone.reason ≡ Reason.Done → All IsUp gone.nodes.items }
    ensures passes { All (HasPass wire.now.lock) result.nodes.items × IsWirePass wire.now.lock result.conductor }
    ensures on { (begun : List (NodeParts M)) →
        HaveGoneOn M.Medium begun gone.nodes.items (knows gone.conductor) →
        HaveGoneOn M.Medium begun result.nodes.items (knows result.conductor) }
    ensures ticks { tick_count (knows result.conductor).own ≡ tick_count (knows gone.conductor).own }
    ensures ends { SettledEnds gone.reason gone.nodes.items → SettledEnds result.reason result.nodes.items }
    ensures settled { IsTrue M.tells → result.reason ≡ Reason.Done → AreSettled result.nodes.items }
    ensures done { result.reason ≡ Reason.Done → gone.reason ≡ Reason.Done }
    ensures count { length result.nodes.items ≡ length gone.nodes.items }
{
    let Gone {
        mut nodes,
        mut conductor,
        reason,
    } = gone;
    let Reason::Done = reason else {
        return Gone {
            nodes,
            conductor,
            reason,
        };
    };
    turn_again(rt, wire, &mut nodes, &mut conductor);
    let reason = reason_of(nodes.as_slice());
    let turned = Gone {
        nodes,
        conductor,
        reason,
    };
    settled(rt, alloc, wire, turned)
}

// Only an idle wire tells that a run has settled, so the reason becomes that nothing is left to do.
fn if_idle(reason: Reason) -> Reason
    ensures { IsToldIdle reason result }
{
    match reason {
        Reason::Done => Reason::RunOut,
        Reason::RunOut | Reason::Enough | Reason::Down | Reason::Wanting => reason,
    }
}

// Why nodes end after a pause: memory ran out if the Tick wasn't made.
fn reason_after<F: Fates, C: Clock, M: Medium>(made: bool, nodes: &[RunNode<F, C, M>]) -> Reason
    ensures ends { SettledEnds result nodes.now }
    ensures made { result ≡ Reason.Done → made ≡ true }
{
    if !made {
        return Reason::Wanting;
    }
    reason_of(nodes)
}

// Time passes once, in which each node hears the Tick, and then the repositories settle.
fn settling<F: Fates, C: Clock, M: Medium, R: Wait>(
    rt: &R,
    alloc: Global,
    wire: &SharedWire<F, C, M>,
    nodes: Vec<RunNode<F, C, M>>,
    conductor: WirePass<F, C, M>,
) -> Gone<F, C, M>
    requires ready { All (IsReady wire.now.lock) nodes.items }
    requires pass { IsWirePass wire.now.lock conductor × ((knows conductor).owner ≡ 0) ×
        (tick_count (knows conductor).own ≡ 0) }
    ensures passes { All (HasPass wire.now.lock) result.nodes.items × IsWirePass wire.now.lock result.conductor }
    ensures on { HaveGoneOn M.Medium nodes.items result.nodes.items (knows result.conductor) }
    ensures ends { SettlingEnds M.tells result.reason result.nodes.items (knows result.conductor) }
    ensures count { length result.nodes.items ≡ length nodes.items }
{
    let mut nodes = nodes;
    let (conductor, made) = pass_time(rt, wire, &mut nodes, conductor);
    let reason = reason_after(made, nodes.as_slice());
    let paused = Gone {
        nodes,
        conductor,
        reason,
    };
    let first = settled(rt, alloc, wire, paused);
    let Gone {
        nodes,
        conductor,
        reason,
    } = settled_again(rt, alloc, wire, first);
    Gone {
        nodes,
        conductor,
        reason: if_idle(reason),
    }
}

// The nodes go on as the run is for.
fn gone_for<
    F: Fates + Drop + Send,
    C: Clock + Drop + Send,
    M: Medium + Drop + Send,
    R: Threads + Wait + Sync,
>(
    rt: &R,
    alloc: Global,
    wire: &SharedWire<F, C, M>,
    course: Course,
    nodes: Vec<RunNode<F, C, M>>,
    shares: Vec<Vec<RunNode<F, C, M>>>,
    conductor: WirePass<F, C, M>,
) -> Gone<F, C, M>
    requires ready { All (IsReady wire.now.lock) nodes.items }
    requires some { 1 ≤ length shares.items }
    requires dealt { IsDealt (length shares.items) [] shares.items }
    requires empty { All (λ s. s.items ≡ []) shares.items }
    requires share_room { (count : _) × (vec_len nodes ≤ count) × HaveRoom (length shares.items) count shares.items }
    requires pass { IsWirePass wire.now.lock conductor × ((knows conductor).owner ≡ 0) ×
        (tick_count (knows conductor).own ≡ 0) }
    ensures passes { All (HasPass wire.now.lock) result.nodes.items × IsWirePass wire.now.lock result.conductor }
    ensures on { HaveGoneOn M.Medium nodes.items result.nodes.items (knows result.conductor) }
    ensures ends { CourseEnds M.tells course result.reason result.nodes.items (knows result.conductor) }
    ensures count { length result.nodes.items ≡ length nodes.items }
{
    match course {
        Course::Acts(limits) => acted(rt, alloc, wire, limits, nodes, shares, conductor),
        Course::Settling => {
            let_go(shares);
            settling(rt, alloc, wire, nodes, conductor)
        }
    }
}

/// Lets the nodes go on as the run is for, takes them apart, and closes the wire. The shares are empty, with
/// room for all nodes; so are the lists of media and passes.
pub fn rounds<
    F: Fates + Drop + Send,
    C: Clock + Drop + Send,
    M: Medium + Drop + Send,
    R: Threads + Wait + Sync,
>(
    rt: &R,
    alloc: Global,
    wire: SharedWire<F, C, M>,
    course: Course,
    nodes: Vec<RunNode<F, C, M>>,
    shares: Vec<Vec<RunNode<F, C, M>>>,
    conductor: WirePass<F, C, M>,
    media: Vec<Option<M>>,
    passes: Vec<WirePass<F, C, M>>,
) -> Finished<F, C, M>
    requires ready { All (IsReady wire.lock) nodes.items }
    requires count { length nodes.items ≡ length (base_of wire.lock).origin.opened }
    requires some { 1 ≤ length shares.items }
    requires dealt { IsDealt (length shares.items) [] shares.items }
    requires bare { All (λ s. s.items ≡ []) shares.items }
    requires share_room { (count : _) × (vec_len nodes ≤ count) × HaveRoom (length shares.items) count shares.items }
    requires pass { IsWirePass wire.lock conductor × ((knows conductor).owner ≡ 0) ×
        (tick_count (knows conductor).own ≡ 0) }
    requires empty { (media.items ≡ []) × (passes.items ≡ []) }
    requires room { (vec_len nodes ≤ vec_capacity media) × (vec_len nodes < vec_capacity passes) }
    ensures { HasClosed M.Medium wire.lock course nodes.items result.media result.end
        (F.asked result.fates) (C.answers result.clock) }
{
    let Gone {
        nodes,
        conductor,
        reason,
    } = gone_for(rt, alloc, &wire, course, nodes, shares, conductor);
    let (media, mut passes) = take_apart(nodes, media, passes);
    passes.push_reserved(conductor);
    closed_run(
        wire,
        Ended {
            media,
            passes,
            reason,
        },
    )
}
