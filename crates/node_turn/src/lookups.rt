//! What a repository learns from the board before it asks.
ghost use Rattle.std.specs.Prelude.{◌≡◌, ◌++◌, List, true, false, IsTrue, IfErr, IfSome, OnOk, IsErrOf};
ghost use Rattle.node_inputs.specs.NodeNames.{is_broker};
ghost use Rattle.node_inputs.specs.Causes.{Rose};
ghost use Rattle.node_inputs.specs.Effect.{Effect};
ghost use Rattle.node_inputs.specs.HistoryFault.TheVariants as fault;
ghost use Rattle.node_inputs.specs.Words.{knows};
ghost use Rattle.node_inputs.specs.Walks.{all_effects};
ghost use Rattle.node_inputs.specs.Sights.{IsWirePass, life_at};
ghost use Rattle.node_inputs.specs.Lives.{IsUp, IsAfter, IsUnwritten};
ghost use Rattle.node_turn.specs.Seeks.{Seeks, IsSought, AreSought, stamp_asked};

use node_inputs::{
    Clock, Fates, HistoryFault, Medium, Message, NodeId, NodeKind, Out, SharedWire, Stamp,
    StoredCore, TurnDraft, WirePass, added,
};
use std::sync::Wait;

// Whether the node is a broker.
pub fn is_broker(node: NodeId) -> bool
    ensures { result ≡ is_broker node.kind }
{
    match node.kind {
        NodeKind::Repository => false,
        NodeKind::Broker => true,
    }
}

// The attempt whose decision the message asks for.
pub fn stamp_asked(out: &Out) -> Option<Stamp>
    ensures { result ≡ stamp_asked out.now }
{
    match &out.message {
        Message::Ask { stamp } => Some(*stamp),
        _ => None,
    }
}

/// Unless the repository's log knows the attempt, the board is tested for it, and what it tells is learned.
fn look_up<K: StoredCore<M>, F: Fates, C: Clock, M: Medium, R: Wait>(
    rt: &R,
    wire: &SharedWire<F, C, M>,
    node: NodeId,
    gone: bool,
    stamp: Stamp,
    core: &mut K,
    draft: &mut TurnDraft,
    mut pass: WirePass<F, C, M>,
) -> (WirePass<F, C, M>, Result<(), HistoryFault>)
    requires pass { IsWirePass wire.now.lock pass }
    requires up { IsUp M.Medium K.Meanings core.old (knows pass) node gone true draft.old }
    requires repository { is_broker node.kind ≡ false }
    ensures pass { IsWirePass wire.now.lock result.0 }
    ensures up { OnOk result.1 (IsUp M.Medium K.Meanings core.new (knows result.0) node gone true draft.new) }
    ensures more { OnOk result.1 ((outs : List _) × (draft.new.outs ≡ draft.old.outs ++ outs)) }
    ensures log { IsTrue M.tells → (more : List Effect) ×
        (all_effects (life_at (knows result.0) node) ≡ all_effects (life_at (knows pass) node) ++ more) }
    ensures seeks { Seeks node (knows pass) (knows result.0)
        (λ tests. OnOk result.1 (IsTrue M.tells → IsSought (all_effects (life_at (knows result.0) node)) stamp tests)) }
    ensures err { IfErr result.1 (λ f. IsAfter M.Medium K.Meanings f core.new (knows result.0) node draft.old.durable) }
    ensures durable { draft.new.durable ≡ draft.old.durable }
    ensures unwritten { IsUnwritten M.Medium (K.parts core.old).medium (K.parts core.new).medium }
    ensures cause { IsErrOf result.1 fault.Medium →
        Rose (M.faults (K.parts core.old).medium) (M.faults (K.parts core.new).medium) }
{
    if core.knows(stamp) {
        return (pass, Ok(()));
    }
    let Some(committed) = wire.decided(&mut pass, stamp) else {
        return (pass, Ok(()));
    };
    let (pass, learned) = wire.learn(rt, node, pass, stamp, committed);
    match learned {
        Err(_) => (pass, Err(HistoryFault::NoMemory)),
        Ok(()) => {
            let gave = core.learn(stamp, committed);
            (pass, added(draft, gave))
        }
    }
}

// The same where a message asks.
fn look_up_asked<K: StoredCore<M>, F: Fates, C: Clock, M: Medium, R: Wait>(
    rt: &R,
    wire: &SharedWire<F, C, M>,
    node: NodeId,
    gone: bool,
    asked: Option<Stamp>,
    core: &mut K,
    draft: &mut TurnDraft,
    pass: WirePass<F, C, M>,
) -> (WirePass<F, C, M>, Result<(), HistoryFault>)
    requires pass { IsWirePass wire.now.lock pass }
    requires up { IsUp M.Medium K.Meanings core.old (knows pass) node gone true draft.old }
    requires repository { is_broker node.kind ≡ false }
    ensures pass { IsWirePass wire.now.lock result.0 }
    ensures up { OnOk result.1 (IsUp M.Medium K.Meanings core.new (knows result.0) node gone true draft.new) }
    ensures more { OnOk result.1 ((outs : List _) × (draft.new.outs ≡ draft.old.outs ++ outs)) }
    ensures log { IsTrue M.tells → (more : List Effect) ×
        (all_effects (life_at (knows result.0) node) ≡ all_effects (life_at (knows pass) node) ++ more) }
    ensures seeks { Seeks node (knows pass) (knows result.0)
        (λ tests. OnOk result.1 (IsTrue M.tells →
        IfSome asked (λ s. IsSought (all_effects (life_at (knows result.0) node)) s tests))) }
    ensures err { IfErr result.1 (λ f. IsAfter M.Medium K.Meanings f core.new (knows result.0) node draft.old.durable) }
    ensures durable { draft.new.durable ≡ draft.old.durable }
    ensures unwritten { IsUnwritten M.Medium (K.parts core.old).medium (K.parts core.new).medium }
    ensures cause { IsErrOf result.1 fault.Medium →
        Rose (M.faults (K.parts core.old).medium) (M.faults (K.parts core.new).medium) }
{
    match asked {
        None => (pass, Ok(())),
        Some(stamp) => look_up(rt, wire, node, gone, stamp, core, draft, pass),
    }
}

/// Before a repository asks: the board is tested for each attempt that it would ask for, and what it
/// tells is learned. What that leads to may ask for more.
pub fn look_up_all<K: StoredCore<M>, F: Fates, C: Clock, M: Medium, R: Wait>(
    rt: &R,
    wire: &SharedWire<F, C, M>,
    node: NodeId,
    gone: bool,
    core: &mut K,
    draft: &mut TurnDraft,
    mut pass: WirePass<F, C, M>,
) -> (WirePass<F, C, M>, Result<(), HistoryFault>)
    requires pass { IsWirePass wire.now.lock pass }
    requires up { IsUp M.Medium K.Meanings core.old (knows pass) node gone true draft.old }
    ensures pass { IsWirePass wire.now.lock result.0 }
    ensures up { OnOk result.1 (IsUp M.Medium K.Meanings core.new (knows result.0) node gone true draft.new) }
    ensures seeks { Seeks node (knows pass) (knows result.0)
        (λ tests. OnOk result.1 (IsTrue M.tells → is_broker node.kind ≡ false →
        AreSought (all_effects (life_at (knows result.0) node)) draft.new.outs tests)) }
    ensures err { IfErr result.1 (λ f. IsAfter M.Medium K.Meanings f core.new (knows result.0) node draft.old.durable) }
    ensures durable { draft.new.durable ≡ draft.old.durable }
    ensures unwritten { IsUnwritten M.Medium (K.parts core.old).medium (K.parts core.new).medium }
    ensures cause { IsErrOf result.1 fault.Medium →
        Rose (M.faults (K.parts core.old).medium) (M.faults (K.parts core.new).medium) }
{
    if is_broker(node) {
        return (pass, Ok(()));
    }
    let mut index = 0usize;
    while index < draft.outs().len() {
        let asked = stamp_asked(&draft.outs()[index]);
        let (back, sought) = look_up_asked(rt, wire, node, gone, asked, core, draft, pass);
        pass = back;
        if let Err(fault) = sought {
            return (pass, Err(fault));
        }
        index += 1;
    }
    (pass, Ok(()))
}
