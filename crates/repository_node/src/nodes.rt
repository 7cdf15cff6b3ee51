//! A repository of a run.
ghost use Rattle.std.specs.Prelude.{◌≡◌, ◌≤◌, ◌^◌, [], false, IsTrue, IfOk, IfErr, Some};
ghost use Rattle.pseudo_time.specs.Nodes.{repository};
ghost use Rattle.effect_form.specs.Effects.{AreEffects};
ghost use Rattle.version_store.specs.StoreWords.{medium_of, effects_in};
ghost use Rattle.seat_lock.specs.Words.{knows};
ghost use Rattle.node_turn.specs.Walks.{opened_log};
ghost use Rattle.node_turn.specs.Sights.{IsOf, life_at, origin_at};
ghost use Rattle.node_turn.specs.Nodes.{new_node, sight};
ghost use Rattle.repository_node.specs.Doubts.{decided_at, doubts};

use crate::cores::{RepositoryCore, open_core};
use crate::kept_cores::KeptCore;
use crate::notes::Notes;
use effect_form::Effect;
use medium_port::Medium;
use node_turn::{Condition, Node, WirePass};
use pseudo_time::{NodeId, Stamp};
use std::alloc::{AllocError, Global};
use stream_port::{Clock, Fates};
use version_store::Store;

/// A repository of a run, with its log and its histories on a medium, and its pass. Its turns,
/// meetings and release are those of `Node`.
pub type RepositoryNode<F, C, M> = Node<RepositoryCore<M>, F, C, M>;

/// The repository of this number in a run that began at this moment. The effects are those of its
/// store, and the pass has seen nothing yet.
pub fn open_repository<F: Fates, C: Clock, M: Medium>(
    alloc: Global,
    number: u8,
    start: u64,
    store: Store<M>,
    effects: &[Effect],
    pass: WirePass<F, C, M>,
) -> Result<RepositoryNode<F, C, M>, (M, WirePass<F, C, M>, AllocError)>
    requires start { (start ≤ 2 ^ 62) × ((origin_at (knows pass)).start ≡ start) }
    requires open { M.is_failed (medium_of store) ≡ false }
    requires log { IsTrue M.tells → effects_in M.reads store ≡ effects.now }
    requires ranges { AreEffects effects.now }
    requires pass { IsOf (repository number) (knows pass) × ((knows pass).story ≡ []) × ((knows pass).own ≡ []) }
    requires opened { opened_log (origin_at (knows pass)).opened (repository number) ≡ Some effects.now }
    ensures new { IfOk result (λ n. n ≡ new_node (repository number) pass (medium_of store)) }
    ensures err { IfErr result (λ e. (e.0 ≡ medium_of store) × (e.1 ≡ pass)) }
{
    match open_core(alloc, number, start, store, effects) {
        Err(medium) => Err((medium, pass, AllocError)),
        Ok(core) => {
            let kept = KeptCore::Open(core);
            let notes = Notes::of(alloc, number, effects);
            let core = RepositoryCore {
                number,
                start,
                kept,
                notes,
            };
            let name = NodeId::repository(number);
            let node = Node::new(alloc, name, effects.len(), core, pass);
            Ok(node)
        }
    }
}

/// The stamps in doubt by the repository's log, one for each version. An error found no memory.
pub fn doubts<F: Fates, C: Clock, M: Medium>(
    alloc: Global,
    node: &RepositoryNode<F, C, M>,
) -> Result<Vec<Stamp>, AllocError>
    requires up { node.now.condition ≡ Condition.AtWork }
    ensures { IsTrue M.tells → IfOk result (λ all.
        all.items ≡ doubts node.now.node.number (life_at (sight node.now) node.now.node).gated) }
{
    node.core().doubts(alloc)
}

/// How the repository decided a stamp, as its home. An error found no memory.
pub fn decided<F: Fates, C: Clock, M: Medium>(
    node: &RepositoryNode<F, C, M>,
    stamp: Stamp,
) -> Result<Option<bool>, AllocError>
    requires up { node.now.condition ≡ Condition.AtWork }
    ensures { IsTrue M.tells → IfOk result (λ o.
        o ≡ decided_at node.now.node.number (life_at (sight node.now) node.now.node).gated stamp) }
{
    node.core().decided(stamp)
}
