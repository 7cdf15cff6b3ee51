//! Repositories settle once all brokers are done: each learns what the homes of its versions decided.
ghost use Rattle.std.specs.Prelude.{◌≡◌, ◌++◌, All, IsTrue, IfOk, OnOk};
ghost use Rattle.std.specs.List.{AllZip};
ghost use Rattle.seat_lock.specs.Words.{knows};
ghost use Rattle.run_starts.specs.Nodes.{GoesOn, HasAllOf, HasPass, IsKeptThrough, IsReady, IsUp};
ghost use Rattle.run_starts.specs.Reasons.{IsDone};
ghost use Rattle.run_starts.specs.Sights.{IsWirePass, Looked};
ghost use Rattle.run_rounds.specs.Settled.{AreSettled, IsFound, IsListFor, IsOwn, SettledEnds, entry_for};

use medium_port::Medium;
use pseudo_time::Stamp;
use run_starts::{
    Reason, RunNode, SharedWire, WirePass, is_any_down, is_any_wanting, meet_share, settle_all,
};
use std::alloc::{AllocError, Global};
use std::sync::Wait;
use stream_port::{Clock, Fates};

// How one of the nodes decided the stamp, as its home.
fn found<F: Fates, C: Clock, M: Medium>(
    nodes: &[RunNode<F, C, M>],
    stamp: Stamp,
) -> Result<Option<bool>, AllocError>
    requires up { All IsUp nodes.now }
    ensures { IsTrue M.tells → IfOk result (IsFound nodes.now stamp) }
{
    for node in nodes {
        if let Some(committed) = node.decided(stamp)? {
            return Ok(Some(committed));
        }
    }
    Ok(None)
}

// Adds the stamp with its decision, if there is one.
fn add_found(
    list: &mut Vec<(Stamp, bool)>,
    stamp: Stamp,
    found: Option<bool>,
) -> Result<(), AllocError>
    ensures { OnOk result (list.new.items ≡ list.old.items ++ entry_for stamp found) }
{
    if let Some(committed) = found {
        list.push((stamp, committed))?;
    }
    Ok(())
}

// What the nodes decided of the stamps that one of them leaves in doubt, in rising order of stamps.
fn list_for<F: Fates, C: Clock, M: Medium>(
    alloc: Global,
    nodes: &[RunNode<F, C, M>],
    node: &RunNode<F, C, M>,
) -> Result<Vec<(Stamp, bool)>, AllocError>
    requires up { All IsUp nodes.now × IsUp node.now }
    ensures list { IsTrue M.tells → IfOk result (λ list. IsListFor nodes.now node.now list.items) }
    ensures own { IfOk result (λ _. IsOwn node.now) }
{
    let _name = node.node();
    let mut stamps = node.doubts(alloc)?;
    stamps.sort_unstable();
    let mut list = Vec::new(alloc);
    for stamp in stamps.as_slice() {
        add_found(&mut list, *stamp, found(nodes, *stamp)?)?;
    }
    Ok(list)
}

// Such a list for each of the nodes.
fn lists_for<F: Fates, C: Clock, M: Medium>(
    alloc: Global,
    nodes: &[RunNode<F, C, M>],
) -> Result<Vec<Vec<(Stamp, bool)>>, AllocError>
    requires up { All IsUp nodes.now }
    ensures lists { IfOk result (λ lists. AllZip (λ n list. (IsTrue M.tells → IsListFor nodes.now n list.items) × IsOwn n)
        nodes.now lists.items) }
{
    let mut lists = Vec::with_capacity(alloc, nodes.len())?;
    for node in nodes {
        lists.push(list_for(alloc, nodes, node)?)?;
    }
    Ok(lists)
}

/// Why nodes that settle end.
pub fn reason_of<F: Fates, C: Clock, M: Medium>(nodes: &[RunNode<F, C, M>]) -> Reason
    ensures { SettledEnds result nodes.now }
{
    if is_any_wanting(nodes) {
        return Reason::Wanting;
    }
    if is_any_down(nodes) {
        return Reason::Down;
    }
    Reason::Done
}

/// Lets each repository learn what was decided at other homes of the versions that its log leaves in
/// doubt: one append for each where there is any, in the order of the nodes, and no message. The nodes
/// are all of the run, at work, with brokers that are done. Memory may run out for the lists, and a node
/// may go down: the answer says it.
pub fn settle_nodes<F: Fates, C: Clock, M: Medium, R: Wait>(
    rt: &R,
    alloc: Global,
    wire: &SharedWire<F, C, M>,
    nodes: &mut Vec<RunNode<F, C, M>>,
    pass: &mut WirePass<F, C, M>,
) -> Reason
    requires ready { All (IsReady wire.now.lock) nodes.old.items × IsWirePass wire.now.lock pass.old }
    requires all { All (HasAllOf (knows pass.old).story) nodes.old.items }
    ensures passes { All (HasPass wire.now.lock) nodes.new.items × IsWirePass wire.now.lock pass.new }
    ensures went { AllZip (GoesOn M.tells M.faults M.reads) nodes.old.items nodes.new.items }
    ensures kept { AllZip (IsKeptThrough M.tells M.stages) nodes.old.items nodes.new.items }
    ensures looked { Looked (knows pass.old) (knows pass.new) }
    ensures all { All (HasAllOf (knows pass.new).story) nodes.new.items }
    ensures ends { SettledEnds result nodes.new.items }
    ensures done { IsTrue M.tells → result ≡ Reason.Done → All IsDone nodes.old.items → All IsDone nodes.new.items }
    ensures settled { IsTrue M.tells → result ≡ Reason.Done → AreSettled nodes.new.items }
{
    let Ok(lists) = lists_for(alloc, nodes.as_slice()) else {
        return Reason::Wanting;
    };
    meet_share(wire, nodes, pass);
    settle_all(rt, wire, lists.as_slice(), nodes);
    meet_share(wire, nodes, pass);
    reason_of(nodes.as_slice())
}
