//! How a turn is closed: the effects are made durable, and then the gate sends what waits for them.
ghost use Rattle.std.specs.Prelude.{◌≡◌, ◌≤◌, ◌++◌, ◌∷◌, [], true, false, ℕ, IsTrue, IfOk, IfErr, OnOk, OnErr, IsErrOf};
ghost use Rattle.node_inputs.specs.Messages.{IsMessage};
ghost use Rattle.std.specs.List.{filter};
ghost use Rattle.node_inputs.specs.NodeNames.{is_broker};
ghost use Rattle.node_inputs.specs.Causes.{Rose};
ghost use Rattle.node_inputs.specs.TurnRanges.{AreOuts};
ghost use Rattle.node_inputs.specs.StoreFault.TheVariants as adding;
ghost use Rattle.node_inputs.specs.Words.{knows};
ghost use Rattle.node_inputs.specs.WorldNodes.{leaves};
ghost use Rattle.node_inputs.specs.Walks.{Base, Life, all_effects};
ghost use Rattle.node_inputs.specs.Changes.{owed};
ghost use Rattle.node_inputs.specs.Decisions.{decided_by, decision_in};
ghost use Rattle.node_inputs.specs.Sights.{IsWirePass, life_at, world_at};
ghost use Rattle.node_inputs.specs.Works.{AsksNobody};
ghost use Rattle.node_inputs.specs.Cores.{IsIntact};
ghost use Rattle.node_inputs.specs.Lives.{AskNobody, IsUp, IsAfterAppend, no_draft};
ghost use Rattle.node_inputs.specs.Trails.{Trail};
ghost use Rattle.node_turn.specs.Windows.{PassesOn};

use crate::lookups::stamp_asked;
use node_inputs::{
    Clock, Decision, Effect, Fates, Medium, NodeId, NodeKind, Out, SharedWire, Stamp, StoreFault,
    StoredCore, TurnDraft, WirePass,
};
use std::alloc::{AllocError, Global};
use std::sync::Wait;

// Whether a message leaves at the gate: all but a repository's Ask for an attempt that its log knows.
fn leaves<K: StoredCore<M>, M: Medium>(node: NodeId, core: &K, out: &Out) -> bool
    requires able { (K.parts core.now).able ≡ true }
    requires node { (K.parts core.now).node ≡ node }
    ensures { IsTrue M.tells → (b : Base) (l : Life) → K.lives b core.now l →
        (is_broker node.kind ≡ true → AsksNobody out.now.message) →
        result ≡ leaves (all_effects l) out.now }
{
    if node.kind == NodeKind::Broker {
        return true;
    }
    match stamp_asked(out) {
        Some(stamp) => !core.knows(stamp),
        None => true,
    }
}

// Adds a message, where it leaves.
fn add_leaving<K: StoredCore<M>, M: Medium>(
    node: NodeId,
    core: &K,
    out: Out,
    all: &mut Vec<Out>,
) -> Result<(), AllocError>
    requires able { (K.parts core.now).able ≡ true }
    requires node { (K.parts core.now).node ≡ node }
    ensures leaving { IsTrue M.tells → (b : Base) (l : Life) → K.lives b core.now l →
        (is_broker node.kind ≡ true → AsksNobody out.message) →
        OnOk result (all.new.items ≡ all.old.items ++ filter (leaves (all_effects l)) (out ∷ [])) }
    ensures in_range { IsMessage out.message → AreOuts all.old.items → OnOk result (AreOuts all.new.items) }
{
    if leaves(node, core, &out) {
        all.push(out)?;
    }
    Ok(())
}

// The messages that leave at the gate, in order.
fn leaving<K: StoredCore<M>, M: Medium>(
    alloc: Global,
    node: NodeId,
    core: &K,
    outs: Vec<Out>,
) -> Result<Vec<Out>, AllocError>
    requires able { (K.parts core.now).able ≡ true }
    requires node { (K.parts core.now).node ≡ node }
    requires in_range { AreOuts outs.items }
    ensures leaving { IsTrue M.tells → (b : Base) (l : Life) → K.lives b core.now l →
        (is_broker node.kind ≡ true → AskNobody outs.items) →
        IfOk result (λ all. all.items ≡ filter (leaves (all_effects l)) outs.items) }
    ensures in_range { IfOk result (λ all. AreOuts all.items) }
{
    let mut all = Vec::new(alloc);
    for out in outs {
        add_leaving(node, core, out, &mut all)?;
    }
    Ok(all)
}

// Adds the decision that an effect is, where the attempt's home is this node.
fn add_decision(
    node: NodeId,
    effect: &Effect,
    all: &mut Vec<(Stamp, bool)>,
) -> Result<(), AllocError>
    ensures { OnOk result (all.new.items ≡ all.old.items ++ decision_in node effect.now) }
{
    if let Effect::Decide { stamp, decision } = effect {
        if NodeId::repository(stamp.home()) == node {
            all.push((*stamp, *decision == Decision::Committed))?;
        }
    }
    Ok(())
}

// The decisions among the effects whose attempt has this node as its home, in order.
fn decisions(
    alloc: Global,
    node: NodeId,
    effects: &[Effect],
) -> Result<Vec<(Stamp, bool)>, AllocError>
    ensures { IfOk result (λ all. all.items ≡ decided_by node effects.now) }
{
    let mut all = Vec::new(alloc);
    for effect in effects {
        add_decision(node, effect, &mut all)?;
    }
    Ok(all)
}

/// Closes a turn. Ok tells how many effects are then durable.
pub fn close<K: StoredCore<M>, F: Fates, C: Clock, M: Medium, R: Wait>(
    alloc: Global,
    rt: &R,
    wire: &SharedWire<F, C, M>,
    node: NodeId,
    gone: bool,
    core: K,
    draft: TurnDraft,
    pass: WirePass<F, C, M>,
) -> (WirePass<F, C, M>, K, Result<usize, StoreFault>)
    requires pass { IsWirePass wire.now.lock pass }
    requires up { IsUp M.Medium K.Meanings core (knows pass) node gone true draft }
    ensures pass { IsWirePass wire.now.lock result.0 }
    ensures up { IfOk result.2 (λ durable. IsUp M.Medium K.Meanings result.1 (knows result.0) node gone false
        (no_draft durable)) }
    ensures err { IfErr result.2 (λ f. IsAfterAppend M.Medium K.Meanings f result.1
        (knows result.0) node draft.durable) }
    ensures sent { OnOk result.2 (Trail node (knows pass) (knows result.0)
        (owed (world_at (knows pass)) node) [] [] 0) }
    ensures unsent { OnErr result.2 (Trail node (knows pass) (knows result.0) [] [] [] 0) }
    ensures later { M.faults (K.parts core).medium ≤ M.faults (K.parts result.1).medium }
    ensures intact { IsTrue M.tells →
        OnOk result.2 (IsIntact (M.reads (K.parts core).medium) (M.reads (K.parts result.1).medium)) }
    ensures nothing { IfErr result.2 (λ f. (number : ℕ) → f ≡ adding.Full number →
        (K.parts result.1).medium ≡ (K.parts core).medium) }
    ensures cause { IsErrOf result.2 adding.Medium →
        Rose (M.faults (K.parts core).medium) (M.faults (K.parts result.1).medium) }
    ensures passes { IsTrue M.tells → PassesOn node (knows pass) (knows result.0)
        (M.stages (K.parts core).medium) (M.stages (K.parts result.1).medium) }
    ensures still { IsTrue M.tells → OnErr result.2 (life_at (knows result.0) node ≡ life_at (knows pass) node) }
    ensures gated { IsTrue M.tells → OnOk result.2 ((life_at (knows result.0) node).gated ≡
        all_effects (life_at (knows pass) node)) }
{
    let before = draft.durable();
    let (effects, outs) = draft.into_parts();
    let Ok(outs) = leaving(alloc, node, &core, outs) else {
        return (pass, core, Err(StoreFault::NoMemory));
    };
    let Ok(decides) = decisions(alloc, node, effects.as_slice()) else {
        return (pass, core, Err(StoreFault::NoMemory));
    };
    let Some(durable) = before.checked_add(effects.len()) else {
        return (pass, core, Err(StoreFault::NoMemory));
    };
    let (core, appended) = core.append(effects.as_slice());
    match appended {
        Err(fault) => (pass, core, Err(fault)),
        Ok(()) => {
            let (pass, gated) = wire.gate(rt, node, pass, outs, decides.as_slice());
            match gated {
                Err(_) => (pass, core, Err(StoreFault::NoMemory)),
                Ok(()) => (pass, core, Ok(durable)),
            }
        }
    }
}
