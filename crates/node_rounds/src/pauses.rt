//! Time passes once.
ghost use Rattle.std.specs.Prelude.{◌≡◌, All, MatchBool};
ghost use Rattle.std.specs.List.{AllZip};
ghost use Rattle.seat_lock.specs.Words.{knows};
ghost use Rattle.broker_node.specs.Sights.{IsWirePass, Looked};
ghost use Rattle.node_rounds.specs.Nodes.{GoesOn, HasAllOf, HasPass, IsKeptThrough, IsReady};
ghost use Rattle.node_rounds.specs.Reasons.{SeesMore};

use crate::meetings::meet_share;
use crate::nodes::RunNode;
use crate::turns::share_often;
use broker_node::{SharedWire, WirePass};
use medium_port::Medium;
use std::sync::Wait;
use stream_port::{Clock, Fates};

// How many turns each node has after the Tick: more than it takes to hear it and to close what comes of it.
const TURNS: u32 = 64;

// One Tick, if nothing is due. True if it was made.
fn tick<F: Fates, C: Clock, M: Medium, R: Wait>(
    rt: &R,
    wire: &SharedWire<F, C, M>,
    pass: WirePass<F, C, M>,
) -> (WirePass<F, C, M>, bool)
    requires pass { IsWirePass wire.now.lock pass }
    requires conductor { (knows pass).owner ≡ 0 }
    ensures pass { IsWirePass wire.now.lock result.0 }
    ensures made { MatchBool result.1 (SeesMore 1 (knows pass) (knows result.0))
        (SeesMore 0 (knows pass) (knows result.0)) }
{
    let (pass, ticked, _) = wire.tick(rt, pass);
    match ticked {
        Ok(Some(_)) => (pass, true),
        Ok(None) => (pass, false),
        Err(_) => (pass, false),
    }
}

/// Lets time pass once, and gives the nodes turns, in which each hears it: a repository lets expire what is
/// due. True if the conductor made its Tick. Else something was due, or memory ran out.
pub fn pass_time<F: Fates, C: Clock, M: Medium, R: Wait>(
    rt: &R,
    wire: &SharedWire<F, C, M>,
    nodes: &mut Vec<RunNode<F, C, M>>,
    pass: WirePass<F, C, M>,
) -> (WirePass<F, C, M>, bool)
    requires ready { All (IsReady wire.now.lock) nodes.old.items × IsWirePass wire.now.lock pass }
    requires conductor { (knows pass).owner ≡ 0 }
    ensures passes { All (HasPass wire.now.lock) nodes.new.items × IsWirePass wire.now.lock result.0 }
    ensures went { AllZip (GoesOn M.tells M.faults M.reads) nodes.old.items nodes.new.items }
    ensures kept { AllZip (IsKeptThrough M.tells M.stages) nodes.old.items nodes.new.items }
    ensures all { All (HasAllOf (knows result.0).story) nodes.new.items }
    ensures made { MatchBool result.1 (SeesMore 1 (knows pass) (knows result.0))
        (SeesMore 0 (knows pass) (knows result.0)) }
{
    let mut pass = pass;
    meet_share(wire, nodes, &mut pass);
    let (mut pass, made) = tick(rt, wire, pass);
    meet_share(wire, nodes, &mut pass);
    share_often(rt, wire, TURNS, nodes);
    meet_share(wire, nodes, &mut pass);
    (pass, made)
}

/// Gives the nodes turns, in which one that was opened again hears the time again: no time passes.
pub fn turn_again<F: Fates, C: Clock, M: Medium, R: Wait>(
    rt: &R,
    wire: &SharedWire<F, C, M>,
    nodes: &mut Vec<RunNode<F, C, M>>,
    pass: &mut WirePass<F, C, M>,
)
    requires ready { All (IsReady wire.now.lock) nodes.old.items × IsWirePass wire.now.lock pass.old }
    ensures passes { All (HasPass wire.now.lock) nodes.new.items × IsWirePass wire.now.lock pass.new }
    ensures went { AllZip (GoesOn M.tells M.faults M.reads) nodes.old.items nodes.new.items }
    ensures kept { AllZip (IsKeptThrough M.tells M.stages) nodes.old.items nodes.new.items }
    ensures looked { Looked (knows pass.old) (knows pass.new) }
    ensures all { All (HasAllOf (knows pass.new).story) nodes.new.items }
{
    meet_share(wire, nodes, pass);
    share_often(rt, wire, TURNS, nodes);
    meet_share(wire, nodes, pass);
}
