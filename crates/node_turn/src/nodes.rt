//! A node: its core with its medium, and its pass.
ghost use Rattle.std.specs.Prelude.{◌≡◌, [], true, false, IsTrue, IfOk};
ghost use Rattle.node_inputs.specs.Words.{knows};
ghost use Rattle.node_inputs.specs.NodeNames.{is_broker};
ghost use Rattle.node_inputs.specs.Sights.{IsOf, IsWirePass, Looked, base_at, life_at, world_at};
ghost use Rattle.node_inputs.specs.Lives.{IsUp, no_draft};
ghost use Rattle.node_turn.specs.Nodes.{TurnsTo, MeetsWith, IsAtRest, IsCondition, Answers, new_node, sight};
ghost use Rattle.node_turn.specs.Settles.{SettlesTo, Stand};

use crate::conditions::{Condition, Turned};
use crate::hands::Hand;
use crate::settling::settle;
use crate::turns::work;
use node_inputs::{Clock, Fates, Medium, NodeId, SharedWire, Stamp, StoredCore, WirePass};
use std::alloc::{AllocError, Global};
use std::marker::Model;
use std::sync::Wait;

/// A node of a run: its core, its medium and its pass.
///
/// Contracts see its name, how it stands, its pass and its medium. Between two turns what it keeps is
/// that of its life in what its pass has seen, so that nothing which other nodes do can touch it.
pub struct Node<K: StoredCore<M>, F: Fates, C: Clock, M: Medium> {
    alloc: Global,
    node: NodeId,
    hand: Hand<K>,
    pass: WirePass<F, C, M>,
}

impl<K: StoredCore<M>, F: Fates, C: Clock, M: Medium> Model for Node<K, F, C, M> {
    ghost use Rattle.std.specs.Coded.{codes};
    ghost use Rattle.node_inputs.specs.StmtContracts as stmt;
    ghost use Rattle.node_inputs.specs.Words.{knows};
    ghost use Rattle.node_turn.specs.Conditions.{Keeps};
    ghost use Rattle.node_turn.specs.Nodes.{NodeParts};

    ghost Value = { NodeParts M };

    ghost coded = { Prim.hlevel (codes, stmt.the_row.coded) };

    ghost view = { λ n. record {
      node = n.node;
      condition = n.hand.condition;
      pass = n.pass;
      medium = (K.parts n.hand.core).medium;
    } };

    ghost invariant = { λ n. Keeps M.Medium K.Meanings n.hand.condition n.hand.core
        (knows n.pass) n.node n.hand.gone n.hand.durable };
}

// What a turn answers, by how the node stands after it.
fn answer(condition: Condition, quiet: bool) -> Result<Turned, AllocError>
    ensures condition { IsCondition result condition }
    ensures quiet { IfOk result (Answers quiet) }
{
    match condition {
        Condition::Down { cause: _ } => Ok(Turned::Stopped),
        Condition::Wanting => Err(AllocError),
        Condition::AtWork => Ok(if quiet { Turned::Quiet } else { Turned::Worked }),
    }
}

impl<K: StoredCore<M>, F: Fates, C: Clock, M: Medium> Node<K, F, C, M> {
    /// A node that was just opened, with so many effects.
    pub fn new(
        alloc: Global,
        node: NodeId,
        count: usize,
        core: K,
        pass: WirePass<F, C, M>,
    ) -> Node<K, F, C, M>
        requires up { IsUp M.Medium K.Meanings core (knows pass) node false false (no_draft count) }
        ensures { result ≡ new_node node pass (K.parts core).medium }
    {
        Node {
            alloc,
            node,
            hand: Hand {
                core,
                condition: Condition::AtWork,
                gone: false,
                durable: count,
            },
            pass,
        }
    }

    /// One turn. An error found no memory, in this turn or in an earlier one.
    pub fn turn<R: Wait>(
        self,
        rt: &R,
        wire: &SharedWire<F, C, M>,
    ) -> (Node<K, F, C, M>, Result<Turned, AllocError>)
        requires pass { IsWirePass wire.now.lock self.pass }
        ensures pass { IsWirePass wire.now.lock result.0.pass }
        ensures turns { TurnsTo M.Medium self result.0 result.1 }
    {
        let Node {
            alloc,
            node,
            hand,
            pass,
        } = self;
        match hand.condition {
            Condition::Down { cause: _ } => (
                Node {
                    alloc,
                    node,
                    hand,
                    pass,
                },
                Ok(Turned::Stopped),
            ),
            Condition::Wanting => (
                Node {
                    alloc,
                    node,
                    hand,
                    pass,
                },
                Err(AllocError),
            ),
            Condition::AtWork => {
                let (pass, hand, quiet) = work(alloc, rt, wire, node, hand, pass);
                let turned = answer(hand.condition, quiet);
                (
                    Node {
                        alloc,
                        node,
                        hand,
                        pass,
                    },
                    turned,
                )
            }
        }
    }

    /// A repository at work learns these decisions, which their homes took, in a turn of its own. If its log
    /// knows each, it does nothing.
    pub fn settle<R: Wait>(
        self,
        rt: &R,
        wire: &SharedWire<F, C, M>,
        decisions: &[(Stamp, bool)],
    ) -> Node<K, F, C, M>
        requires pass { IsWirePass wire.now.lock self.pass }
        requires up { self.condition ≡ Condition.AtWork }
        requires repository { is_broker self.node.kind ≡ false }
        requires stand { IsTrue M.tells → Stand (world_at (sight self)) decisions.now }
        ensures pass { IsWirePass wire.now.lock result.pass }
        ensures settles { SettlesTo M.Medium decisions.now self result }
    {
        let Node {
            alloc,
            node,
            hand,
            pass,
        } = self;
        let (pass, hand) = settle(alloc, rt, wire, node, decisions, hand, pass);
        Node {
            alloc,
            node,
            hand,
            pass,
        }
    }

    /// Its core. While it is at work, that has the node's life, and its pass is the node's own.
    pub fn core(&self) -> &K
        ensures medium { (K.parts result.now).medium ≡ self.now.medium }
        ensures node { (K.parts result.now).node ≡ self.now.node }
        ensures able { self.now.condition ≡ Condition.AtWork → (K.parts result.now).able ≡ true }
        ensures own { self.now.condition ≡ Condition.AtWork → IsOf self.now.node (sight self.now) }
        ensures life { IsTrue M.tells → self.now.condition ≡ Condition.AtWork →
            K.fits (base_at (sight self.now)) result.now ×
            K.lives (base_at (sight self.now)) result.now (life_at (sight self.now) self.now.node) }
        // Nothing is open between two turns.
        ensures fresh { IsTrue M.tells → self.now.condition ≡ Condition.AtWork →
            (life_at (sight self.now) self.now.node).fresh ≡ [] }
    {
        &self.hand.core
    }

    /// How it stands.
    pub fn condition(&self) -> Condition
        ensures { result ≡ self.now.condition }
    {
        self.hand.condition
    }

    /// The node's pass meets another.
    pub fn meet(&mut self, wire: &SharedWire<F, C, M>, other: &mut WirePass<F, C, M>)
        requires pass { IsWirePass wire.now.lock self.old.pass × IsWirePass wire.now.lock other.old }
        ensures pass { IsWirePass wire.now.lock self.new.pass × IsWirePass wire.now.lock other.new }
        ensures met { MeetsWith (knows other.old) self.old self.new }
        ensures other { Looked (knows other.old) (knows other.new) ×
            ((knows other.new).story ≡ (sight self.new).story) }
    {
        wire.meet(&mut self.pass, other);
    }

    /// The medium and the pass.
    pub fn release(self) -> (M, WirePass<F, C, M>)
        ensures parts { (result.0 ≡ self.medium) × (result.1 ≡ self.pass) }
        ensures rest { IsAtRest M.Medium self }
    {
        let Node {
            alloc: _,
            node: _,
            hand,
            pass,
        } = self;
        let Hand {
            core,
            condition: _,
            gone: _,
            durable: _,
        } = hand;
        (core.release(), pass)
    }
}
