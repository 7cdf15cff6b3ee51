//! A node of a run, of either kind.
ghost use Rattle.std.specs.Prelude.{◌≡◌, false, IsTrue, IfOk};
ghost use Rattle.seat_lock.specs.Words.{knows};
ghost use Rattle.broker_node.specs.Sights.{IsOf, IsWirePass, Looked};
ghost use Rattle.broker_node.specs.TurnNodes.{MeetsWith, sight};
ghost use Rattle.node_rounds.specs.Doubts.{decision_of, doubts_of};
ghost use Rattle.node_rounds.specs.Reasons.{is_done_at};

use crate::kinds::AnyNode;
use crate::turns::Turns;
use broker_node::{BrokerNode, Condition, SharedWire, Turned, WirePass, is_done};
use medium_port::Medium;
use pseudo_time::{NodeId, Stamp};
use repository_node::{RepositoryNode, StoredCore, decided, doubts};
use std::alloc::{AllocError, Global};
use std::marker::Model;
use std::sync::Wait;
use stream_port::{Clock, Fates};

/// A node of a run, of either kind. Contracts see its name, how it stands, its pass and its medium.
pub struct RunNode<F: Fates, C: Clock, M: Medium> {
    pub kind: AnyNode<RepositoryNode<F, C, M>, BrokerNode<F, C, M>>,
}

impl<F: Fates, C: Clock, M: Medium> Model for RunNode<F, C, M> {
    ghost use Rattle.std.specs.Coded.{codes};
    ghost use Rattle.value_form.specs.contracts.scripts.Stmt as stmt;
    ghost use Rattle.broker_node.specs.TurnNodes.{NodeParts};
    ghost use Rattle.node_rounds.specs.Kinds.{parts_of, IsOfKind};

    ghost Value = { NodeParts M };

    ghost coded = { Prim.hlevel (codes, stmt.the_row.coded) };

    ghost view = { λ n. parts_of n.kind };

    ghost invariant = { λ n. IsOfKind n.kind };
}

impl<F: Fates, C: Clock, M: Medium> RunNode<F, C, M> {
    /// Its name. While it is at work, its pass is its own.
    pub fn node(&self) -> NodeId
        ensures name { result ≡ self.now.node }
        ensures own { self.now.condition ≡ Condition.AtWork → IsOf self.now.node (sight self.now) }
    {
        match &self.kind {
            AnyNode::Repository(node) => node.core().node(),
            AnyNode::Broker(node) => node.core().node(),
        }
    }

    /// How it stands.
    pub fn condition(&self) -> Condition
        ensures { result ≡ self.now.condition }
    {
        match &self.kind {
            AnyNode::Repository(node) => node.condition(),
            AnyNode::Broker(node) => node.condition(),
        }
    }

    /// Its pass meets another.
    pub fn meet(&mut self, wire: &SharedWire<F, C, M>, other: &mut WirePass<F, C, M>)
        requires pass { IsWirePass wire.now.lock self.old.pass × IsWirePass wire.now.lock other.old }
        ensures pass { IsWirePass wire.now.lock self.new.pass × IsWirePass wire.now.lock other.new }
        ensures met { MeetsWith (knows other.old) self.old self.new }
        ensures other { Looked (knows other.old) (knows other.new) ×
            ((knows other.new).story ≡ (sight self.new).story) }
    {
        match &mut self.kind {
            AnyNode::Repository(node) => node.meet(wire, other),
            AnyNode::Broker(node) => node.meet(wire, other),
        }
    }

    /// Whether nothing keeps the run from ending: a repository is always done; a broker where each of
    /// its acts has its outcome and no request is outstanding. Takes no memory.
    pub fn is_done(&self) -> bool
        ensures done { IsTrue M.tells → self.now.condition ≡ Condition.AtWork →
            result ≡ is_done_at (sight self.now) self.now.node }
        ensures own { self.now.condition ≡ Condition.AtWork → result ≡ false → IsOf self.now.node (sight self.now) }
    {
        match &self.kind {
            AnyNode::Repository(_) => true,
            AnyNode::Broker(node) => is_done(node),
        }
    }

    /// The stamps that its durable log leaves in doubt, one for each version; none of a broker. An error
    /// found no memory, now or for a note of the log before.
    pub fn doubts(&self, alloc: Global) -> Result<Vec<Stamp>, AllocError>
        requires up { self.now.condition ≡ Condition.AtWork }
        ensures { IsTrue M.tells → IfOk result (λ all. all.items ≡ doubts_of self.now) }
    {
        match &self.kind {
            AnyNode::Repository(node) => doubts(alloc, node),
            AnyNode::Broker(_) => Ok(Vec::new(alloc)),
        }
    }

    /// Whether it decided, as the home of the stamp, that the attempt commits; None if it didn't decide, as
    /// a broker never does. An error found no memory for a note of the log before.
    pub fn decided(&self, stamp: Stamp) -> Result<Option<bool>, AllocError>
        requires up { self.now.condition ≡ Condition.AtWork }
        ensures { IsTrue M.tells → IfOk result (λ d. d ≡ decision_of self.now stamp) }
    {
        match &self.kind {
            AnyNode::Repository(node) => decided(node, stamp),
            AnyNode::Broker(_) => Ok(None),
        }
    }
}

// Whether a turn worked.
fn has_worked(turned: &Result<Turned, AllocError>) -> bool {
    if let Ok(Turned::Worked) = turned {
        return true;
    }
    false
}

impl<F: Fates, C: Clock, M: Medium> Turns<SharedWire<F, C, M>> for RunNode<F, C, M> {
    ghost use Rattle.node_rounds.specs.Nodes.{IsReady, HadTurn};

    ghost ready = { λ wire n. IsReady wire.lock n };

    ghost does = { λ wire old new. HadTurn wire.lock M.Medium old new };

    fn take_turn<R: Wait>(self, rt: &R, shared: &SharedWire<F, C, M>) -> (RunNode<F, C, M>, bool) {
        let RunNode { kind } = self;
        match kind {
            AnyNode::Repository(node) => {
                let (node, turned) = node.turn(rt, shared);
                let kind = AnyNode::Repository(node);
                (RunNode { kind }, has_worked(&turned))
            }
            AnyNode::Broker(node) => {
                let (node, turned) = node.turn(rt, shared);
                let kind = AnyNode::Broker(node);
                (RunNode { kind }, has_worked(&turned))
            }
        }
    }

    fn may_go_on(&self) -> bool {
        if let Condition::AtWork = self.condition() {
            return true;
        }
        false
    }

    fn turns_join() {}
}
