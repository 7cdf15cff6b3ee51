//! A broker at work.
ghost use Rattle.std.specs.Prelude.{◌≡◌, ◌≤◌, [], false, IsTrue, IfOk, IfErr, Some};
ghost use Rattle.effect_form.specs.Effects.{AreEffects};
ghost use Rattle.pseudo_time.specs.Nodes.{broker};
ghost use Rattle.broker_core.specs.Ledgers.{AreBrokerActs};
ghost use Rattle.broker_core.specs.Tasks.{Scripted};
ghost use Rattle.version_store.specs.StoreWords.{medium_of, effects_in};
ghost use Rattle.seat_lock.specs.Words.{knows};
ghost use Rattle.node_turn.specs.WorldNodes.{acts_of};
ghost use Rattle.node_turn.specs.Walks.{opened_log};
ghost use Rattle.node_turn.specs.Sights.{IsOf, base_at, origin_at, life_at};
ghost use Rattle.node_turn.specs.Cores.{IsReady};
ghost use Rattle.node_turn.specs.Nodes.{new_node, sight};
ghost use Rattle.broker_node.specs.Logs.{is_over};

use crate::cores::BrokerCore;
use crate::logs::Log;
use broker_core::Broker;
use effect_form::Effect;
use medium_port::Medium;
use node_turn::{Condition, Node, WirePass};
use pseudo_time::NodeId;
use std::alloc::{AllocError, Global};
use stream_port::{Clock, Fates};
use value_form::ActSpec;
use version_store::Store;

/// A broker of a run, with its log on a medium and its pass. Its turns, meetings and release are those
/// of `Node`.
pub type BrokerNode<F, C, M> = Node<BrokerCore<M>, F, C, M>;

/// The broker of this number in a run, with its own acts of the plan. The effects are those of
/// its store, and the pass has seen nothing yet. Its log shows neither a later run nor another
/// plan.
pub fn open_broker<F: Fates, C: Clock, M: Medium>(
    alloc: Global,
    number: u8,
    run: u32,
    acts: Vec<ActSpec>,
    store: Store<M>,
    effects: &[Effect],
    pass: WirePass<F, C, M>,
) -> Result<BrokerNode<F, C, M>, (M, WirePass<F, C, M>, AllocError)>
    requires low { 1 ≤ number }
    requires high { number ≤ 16 }
    requires runs { (1 ≤ run) × (run ≡ (origin_at (knows pass)).run) }
    requires acts { AreBrokerActs acts.items × (acts.items ≡ acts_of number (origin_at (knows pass)).acts) ×
        Scripted (base_at (knows pass)).script acts.items }
    requires open { M.is_failed (medium_of store) ≡ false }
    requires log { IsTrue M.tells → effects_in M.reads store ≡ effects.now }
    requires ranges { AreEffects effects.now }
    requires ready { IsReady (base_at (knows pass)) (broker number) effects.now }
    requires pass { IsOf (broker number) (knows pass) × ((knows pass).story ≡ []) × ((knows pass).own ≡ []) }
    requires opened { opened_log (origin_at (knows pass)).opened (broker number) ≡ Some effects.now }
    ensures new { IfOk result (λ n. n ≡ new_node (broker number) pass (medium_of store)) }
    ensures err { IfErr result (λ e. (e.0 ≡ medium_of store) × (e.1 ≡ pass)) }
{
    match Broker::open_with(alloc, number, run, acts, effects) {
        Err(_) => Err((store.release(), pass, AllocError)),
        Ok(broker) => {
            let Ok(broker) = Box::new(alloc, broker) else {
                return Err((store.release(), pass, AllocError));
            };
            let core = BrokerCore {
                number,
                run,
                broker,
                log: Log::Open(store),
            };
            let name = NodeId::broker(number);
            let node = Node::new(alloc, name, effects.len(), core, pass);
            Ok(node)
        }
    }
}

/// Whether each act of the broker has its outcome and no request is outstanding, as far as its pass,
/// which is its own, has seen. Takes no memory.
pub fn is_done<F: Fates, C: Clock, M: Medium>(node: &BrokerNode<F, C, M>) -> bool
    ensures over { IsTrue M.tells → node.now.condition ≡ Condition.AtWork →
        result ≡ is_over (base_at (sight node.now)) node.now.node.number (life_at (sight node.now) node.now.node) }
    ensures own { node.now.condition ≡ Condition.AtWork → IsOf node.now.node (sight node.now) }
{
    node.core().is_done()
}
