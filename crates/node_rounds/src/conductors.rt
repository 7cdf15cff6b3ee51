//! The conductor: rounds, and the five questions behind each.
ghost use Rattle.std.specs.Prelude.{◌≡◌, ◌≤◌, ◌+◌, length, All, Any, IsTrue, MatchBool};
ghost use Rattle.seat_lock.specs.Words.{base_of, knows};
ghost use Rattle.broker_node.specs.Wires.{base_from};
ghost use Rattle.broker_node.specs.Sights.{IsWirePass};
ghost use Rattle.world_core.specs.Counts.{tick_count};
ghost use Rattle.node_rounds.specs.Nodes.{EachNode, SomeNode, EachPlace, GoesOn, IsKeptThrough, HasAllOf, HasPass, IsReady, IsUp};
ghost use Rattle.node_rounds.specs.Reasons.{EndsFor, Follows, HasMemory, HasTicked, IsDone, IsDown, IsFurther, IsLate, NodesSay, SawMore, TicksAreWanted};

use crate::limits::Limits;
use crate::meetings::meet_all;
use crate::nodes::RunNode;
use crate::reasons::{Next, Reason};
use crate::turns::round;
use broker_node::{Condition, SharedWire, WirePass};
use medium_port::Medium;
use std::sync::Wait;
use std::thread::Threads;
use stream_port::{Clock, Fates};

// How many turns nodes have in a round, where several threads give them: a thread is made and waited for each
// round, which costs as much as some turns. One thread gives one turn each, in the order of nodes.
const TURNS: u32 = 64;

// How many rounds behind a Tick are one thread's, where there are several. What is due then is sent again or
// expires, and mostly comes to nothing more within a few turns: threads would take longer to make.
const LEAD: u32 = 16;

// More rounds than a run can have.
const ROUNDS: u64 = 1 << 33;

/// Whether memory ran out for a node of a share.
pub fn is_any_wanting<F: Fates, C: Clock, M: Medium>(nodes: &[RunNode<F, C, M>]) -> bool
    ensures { MatchBool result (Any (λ n. n.condition ≡ Condition.Wanting) nodes.now) (All HasMemory nodes.now) }
{
    for node in nodes {
        if let Condition::Wanting = node.condition() {
            return true;
        }
    }
    false
}

/// Whether a node of a share is down. Memory ran out for none of them.
pub fn is_any_down<F: Fates, C: Clock, M: Medium>(nodes: &[RunNode<F, C, M>]) -> bool
    requires memory { All HasMemory nodes.now }
    ensures { MatchBool result (Any IsDown nodes.now) (All IsUp nodes.now) }
{
    for node in nodes {
        if let Condition::Down { cause: _ } = node.condition() {
            return true;
        }
    }
    false
}

// Whether all nodes of a share are done.
fn are_done<F: Fates, C: Clock, M: Medium>(nodes: &[RunNode<F, C, M>]) -> bool
    requires up { All IsUp nodes.now }
    ensures { MatchBool result (IsTrue M.tells → All IsDone nodes.now) (Any (IsLate M.tells) nodes.now) }
{
    for node in nodes {
        if !node.is_done() {
            return false;
        }
    }
    true
}

// Whether memory ran out for a node.
fn was_wanting<F: Fates, C: Clock, M: Medium>(shares: &[Vec<RunNode<F, C, M>>]) -> bool
    ensures { MatchBool result (SomeNode (λ n. n.condition ≡ Condition.Wanting) shares.now)
        (EachNode HasMemory shares.now) }
{
    for nodes in shares {
        if is_any_wanting(nodes.as_slice()) {
            return true;
        }
    }
    false
}

// Whether a node is down.
fn has_down<F: Fates, C: Clock, M: Medium>(shares: &[Vec<RunNode<F, C, M>>]) -> bool
    requires memory { EachNode HasMemory shares.now }
    ensures { MatchBool result (SomeNode IsDown shares.now) (EachNode IsUp shares.now) }
{
    for nodes in shares {
        if is_any_down(nodes.as_slice()) {
            return true;
        }
    }
    false
}

// Whether all nodes are done.
fn are_all_done<F: Fates, C: Clock, M: Medium>(shares: &[Vec<RunNode<F, C, M>>]) -> bool
    requires up { EachNode IsUp shares.now }
    ensures { MatchBool result (IsTrue M.tells → EachNode IsDone shares.now) (SomeNode (IsLate M.tells) shares.now) }
{
    for nodes in shares {
        if !are_done(nodes.as_slice()) {
            return false;
        }
    }
    true
}

// What the nodes alone say of the end.
fn ended_by_nodes<F: Fates, C: Clock, M: Medium>(shares: &[Vec<RunNode<F, C, M>>]) -> Option<Reason>
    ensures { NodesSay M.tells result shares.now }
{
    if was_wanting(shares) {
        return Some(Reason::Wanting);
    }
    if has_down(shares) {
        return Some(Reason::Down);
    }
    if are_all_done(shares) {
        return Some(Reason::Done);
    }
    None
}

// What follows if the wire isn't idle: a round, if the last one added an entry. Else memory ran out in an
// earlier visit, since what is due is done in a round.
fn further(before: u64, entries: u64) -> Next
    ensures { IsFurther before entries result }
{
    if before < entries {
        Next::Round
    } else {
        Next::End(Reason::Wanting)
    }
}

// The five questions, after a round in which the conductor met all nodes. Where nothing is due, and a
// node isn't done, time passes. Before the round so many entries were seen, and the last number is of those
// that are seen now.
fn asked<F: Fates, C: Clock, M: Medium, R: Wait>(
    rt: &R,
    wire: &SharedWire<F, C, M>,
    limits: Limits,
    ticks: u64,
    before: u64,
    shares: &[Vec<RunNode<F, C, M>>],
    pass: WirePass<F, C, M>,
) -> (WirePass<F, C, M>, Next, u64)
    requires pass { IsWirePass wire.now.lock pass }
    requires conductor { (knows pass).owner ≡ 0 }
    requires ticks { tick_count (knows pass).own ≡ ticks }
    requires few { ticks ≤ limits.ticks }
    requires before { before ≤ length (knows pass).story }
    ensures pass { IsWirePass wire.now.lock result.0 }
    ensures next { Follows M.tells limits result.1 shares.now (knows pass) (knows result.0) }
    ensures ticked { result.1 ≡ Next.Ticked → SomeNode (IsLate M.tells) shares.now ×
        HasTicked (knows pass) (knows result.0) }
    ensures more { SawMore M.tells limits before result.2 result.1 shares.now (knows result.0) }
{
    if let Some(reason) = ended_by_nodes(shares) {
        return (pass, Next::End(reason), before);
    }
    let (pass, seen, _) = wire.look(rt, pass);
    let entries = u64::from(seen.entries);
    if seen.sent >= limits.messages {
        return (pass, Next::End(Reason::Enough), entries);
    }
    if !seen.idle {
        return (pass, further(before, entries), entries);
    }
    if ticks >= limits.ticks {
        return (pass, Next::End(Reason::RunOut), entries);
    }
    let (pass, ticked, _) = wire.tick(rt, pass);
    match ticked {
        Ok(Some(_)) => (pass, Next::Ticked, entries + 1),
        Ok(None) => (pass, further(before, entries), entries),
        Err(_) => (pass, Next::End(Reason::Wanting), entries),
    }
}

// A round, in which each node has a turn, or several unless one thread alone gives them. The conductor meets
// them all, and again if it ticked. Before the round so many entries were seen, and the last number is of
// those that are seen after it.
fn go_round<F: Fates + Send, C: Clock + Send, M: Medium + Send, R: Threads + Wait + Sync>(
    rt: &R,
    wire: &SharedWire<F, C, M>,
    limits: Limits,
    ticks: u64,
    before: u64,
    alone: bool,
    shares: Vec<Vec<RunNode<F, C, M>>>,
    pass: WirePass<F, C, M>,
) -> (Vec<Vec<RunNode<F, C, M>>>, WirePass<F, C, M>, Next, u64)
    requires ready { EachNode (IsReady wire.now.lock) shares.items }
    requires pass { IsWirePass wire.now.lock pass }
    requires conductor { (knows pass).owner ≡ 0 }
    requires ticks { tick_count (knows pass).own ≡ ticks }
    requires few { ticks ≤ limits.ticks }
    requires before { before ≤ length (knows pass).story }
    ensures passes { EachNode (HasPass wire.now.lock) result.0.items × IsWirePass wire.now.lock result.1 }
    ensures went { EachPlace (GoesOn M.tells M.faults M.reads) shares.items result.0.items }
    ensures kept { EachPlace (IsKeptThrough M.tells M.stages) shares.items result.0.items }
    ensures all { EachNode (HasAllOf (knows result.1).story) result.0.items }
    ensures next { Follows M.tells limits result.2 result.0.items (knows pass) (knows result.1) }
    ensures more { SawMore M.tells limits before result.3 result.2 result.0.items (knows result.1) }
    ensures wanted { IsTrue M.tells → TicksAreWanted (base_from (base_of wire.now.lock).origin)
        (knows pass).story shares.items →
        TicksAreWanted (base_from (base_of wire.now.lock).origin) (knows result.1).story result.0.items }
{
    let turns = if limits.workers > 1 && !alone {
        TURNS
    } else {
        1
    };
    let mut shares = shares;
    round(rt, wire, turns, alone, &mut shares);
    let mut pass = pass;
    meet_all(wire, &mut shares, &mut pass);
    let (mut pass, next, entries) = asked(rt, wire, limits, ticks, before, shares.as_slice(), pass);
    if let Next::Ticked = next {
        meet_all(wire, &mut shares, &mut pass);
        return (shares, pass, next, entries);
    }
    (shares, pass, next, entries)
}

/// Gives the nodes their turns, round by round, until the run has ended. The pass is the conductor's,
/// which has made no Tick yet. The last number says how many rounds there were: each but the last one has
/// added an entry, so that rounds end for whatever nodes and media, if the visits of their turns do.
pub fn conduct<F: Fates + Send, C: Clock + Send, M: Medium + Send, R: Threads + Wait + Sync>(
    rt: &R,
    wire: &SharedWire<F, C, M>,
    limits: Limits,
    shares: Vec<Vec<RunNode<F, C, M>>>,
    pass: WirePass<F, C, M>,
) -> (Vec<Vec<RunNode<F, C, M>>>, WirePass<F, C, M>, Reason, u64)
    requires ready { EachNode (IsReady wire.now.lock) shares.items }
    requires pass { IsWirePass wire.now.lock pass }
    requires conductor { (knows pass).owner ≡ 0 }
    requires ticks { tick_count (knows pass).own ≡ 0 }
    ensures passes { EachNode (HasPass wire.now.lock) result.0.items × IsWirePass wire.now.lock result.1 }
    ensures went { EachPlace (GoesOn M.tells M.faults M.reads) shares.items result.0.items }
    ensures kept { EachPlace (IsKeptThrough M.tells M.stages) shares.items result.0.items }
    ensures all { EachNode (HasAllOf (knows result.1).story) result.0.items }
    ensures conductor { (knows result.1).owner ≡ 0 }
    ensures ticks { tick_count (knows result.1).own ≤ limits.ticks }
    ensures reason { EndsFor M.tells limits result.2 result.0.items (knows result.1) }
    ensures rounds { result.3 ≤ length (knows result.1).story + 1 }
    ensures wanted { IsTrue M.tells → TicksAreWanted (base_from (base_of wire.now.lock).origin)
        (knows result.1).story result.0.items }
{
    let mut shares = shares;
    let mut pass = pass;
    let mut ticks = 0;
    let mut entries: u64 = 0;
    let mut lead: u32 = 0;
    // There are fewer than 2^32 entries, so that there is always one round more.
    for rounds in 0..ROUNDS {
        let (nodes, conductor, next, seen) = go_round(
            rt,
            wire,
            limits,
            ticks,
            entries,
            lead > 0,
            shares,
            pass,
        );
        shares = nodes;
        pass = conductor;
        entries = seen;
        match next {
            Next::End(reason) => return (shares, pass, reason, rounds + 1),
            Next::Round => lead = lead.saturating_sub(1),
            Next::Ticked => {
                ticks += 1;
                lead = LEAD;
            }
        }
    }
    unreachable!()
}
