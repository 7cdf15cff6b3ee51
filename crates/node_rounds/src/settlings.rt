//! Repositories learn decisions, one after another.
ghost use Rattle.std.specs.Prelude.{◌≡◌, length, vec_len, vec_capacity, All, IsTrue};
ghost use Rattle.std.specs.List.{AllZip};
ghost use Rattle.node_rounds.specs.Nodes.{HasPass, IsReady};
ghost use Rattle.node_rounds.specs.Settled.{AllStand, HaveSettled};

use crate::kinds::AnyNode;
use crate::nodes::RunNode;
use broker_node::SharedWire;
use medium_port::Medium;
use pseudo_time::Stamp;
use std::sync::Wait;
use stream_port::{Clock, Fates};

/// The repositories settle in the order of the nodes, each by the list in its place. A broker stays as
/// it is.
pub fn settle_all<F: Fates, C: Clock, M: Medium, R: Wait>(
    rt: &R,
    wire: &SharedWire<F, C, M>,
    lists: &[Vec<(Stamp, bool)>],
    nodes: &mut Vec<RunNode<F, C, M>>,
)
    requires ready { All (IsReady wire.now.lock) nodes.old.items }
    requires count { length lists.now ≡ length nodes.old.items }
    requires stand { IsTrue M.tells → AllZip AllStand nodes.old.items lists.now }
    ensures passes { All (HasPass wire.now.lock) nodes.new.items }
    ensures settled { HaveSettled M.Medium nodes.old.items lists.now nodes.new.items }
    ensures room { (vec_len nodes.new ≡ vec_len nodes.old) × (vec_capacity nodes.new ≡ vec_capacity nodes.old) }
{
    let Some(last) = nodes.pop() else {
        return;
    };
    let place = nodes.len();
    settle_all(rt, wire, &lists[..place], nodes);
    let RunNode { kind } = last;
    match kind {
        AnyNode::Repository(node) => {
            let kind = AnyNode::Repository(node.settle(rt, wire, lists[place].as_slice()));
            nodes.push_reserved(RunNode { kind });
        }
        AnyNode::Broker(node) => {
            let kind = AnyNode::Broker(node);
            nodes.push_reserved(RunNode { kind });
        }
    }
}
