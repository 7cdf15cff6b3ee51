//! The conductor meets the nodes.
ghost use Rattle.std.specs.Prelude.{◌≡◌, All};
ghost use Rattle.std.specs.List.{AllZip};
ghost use Rattle.seat_lock.specs.Words.{knows};
ghost use Rattle.broker_node.specs.Sights.{IsWirePass, Looked};
ghost use Rattle.node_rounds.specs.Nodes.{EachNode, EachPlace, HasAllOf, HasMet, HasPass, HasSeen};

use crate::nodes::RunNode;
use broker_node::{SharedWire, WirePass};
use medium_port::Medium;
use stream_port::{Clock, Fates};

/// The passes of a share's nodes meet the conductor's, in their order. It has then all entries of each, and
/// each has seen what it had.
pub fn meet_share<F: Fates, C: Clock, M: Medium>(
    wire: &SharedWire<F, C, M>,
    nodes: &mut Vec<RunNode<F, C, M>>,
    pass: &mut WirePass<F, C, M>,
)
    requires pass { All (HasPass wire.now.lock) nodes.old.items × IsWirePass wire.now.lock pass.old }
    ensures pass { All (HasPass wire.now.lock) nodes.new.items × IsWirePass wire.now.lock pass.new }
    ensures met { AllZip HasMet nodes.old.items nodes.new.items }
    ensures looked { Looked (knows pass.old) (knows pass.new) }
    ensures all { All (HasAllOf (knows pass.new).story) nodes.new.items }
    ensures seen { All (HasSeen (knows pass.old).story) nodes.new.items }
{
    for i in 0..nodes.len() {
        nodes[i].meet(wire, pass);
    }
}

/// The passes of the nodes meet the conductor's, share by share. It has then all entries of each, and
/// each has seen what it had.
pub fn meet_all<F: Fates, C: Clock, M: Medium>(
    wire: &SharedWire<F, C, M>,
    shares: &mut Vec<Vec<RunNode<F, C, M>>>,
    pass: &mut WirePass<F, C, M>,
)
    requires pass { EachNode (HasPass wire.now.lock) shares.old.items × IsWirePass wire.now.lock pass.old }
    ensures pass { EachNode (HasPass wire.now.lock) shares.new.items × IsWirePass wire.now.lock pass.new }
    ensures met { EachPlace HasMet shares.old.items shares.new.items }
    ensures looked { Looked (knows pass.old) (knows pass.new) }
    ensures all { EachNode (HasAllOf (knows pass.new).story) shares.new.items }
    ensures seen { EachNode (HasSeen (knows pass.old).story) shares.new.items }
{
    for i in 0..shares.len() {
        meet_share(wire, &mut shares[i], pass);
    }
}
