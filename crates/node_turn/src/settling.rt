//! A repository learns decisions that their homes took, in a turn of its own.
ghost use Rattle.std.specs.Prelude.{◌≡◌, ◌≢◌, ◌≤◌, [], Ok, true, false, ℕ, List, IsTrue, IfOk, IfErr, OnOk, IsErrOf};
ghost use Rattle.node_inputs.specs.Causes.{Rose};
ghost use Rattle.node_inputs.specs.NodeNames.{is_broker};
ghost use Rattle.node_inputs.specs.HistoryFault.TheVariants as fault;
ghost use Rattle.node_inputs.specs.Words.{knows};
ghost use Rattle.node_inputs.specs.Walks.{all_effects};
ghost use Rattle.node_inputs.specs.Learns.{IsNewTo};
ghost use Rattle.node_inputs.specs.Legal.{IsDecidedAs};
ghost use Rattle.node_inputs.specs.Logs as logs;
ghost use Rattle.node_inputs.specs.Sights.{IsWirePass, life_at, world_at};
ghost use Rattle.node_inputs.specs.Lives.{IsUp, IsAfter, IsUnwritten, no_draft};
ghost use Rattle.node_turn.specs.Conditions.{Keeps};
ghost use Rattle.node_inputs.specs.Costs.{costs, PaysFor};
ghost use Rattle.node_inputs.specs.Trails.{Trail};
ghost use Rattle.node_turn.specs.Nodes.{StaysWhole};
ghost use Rattle.node_inputs.specs.Entries.{Adds};
ghost use Rattle.node_turn.specs.Settles.{AreKnown, Learning, Learns, Stand};
ghost use Rattle.node_turn.specs.Windows.{PassesOn};

use crate::conditions::Condition;
use crate::hands::Hand;
use crate::turns::{end, give_up};
use node_inputs::{
    Clock, Fates, HistoryFault, Medium, NodeId, SharedWire, Stamp, StoredCore, TurnDraft, WirePass,
    added,
};
use std::alloc::Global;
use std::sync::Wait;

// The repository learns a decision that its home took, and that its own log doesn't know. `due` says whether a turn has begun.
fn learn_one<K: StoredCore<M>, F: Fates, C: Clock, M: Medium, R: Wait>(
    rt: &R,
    wire: &SharedWire<F, C, M>,
    node: NodeId,
    gone: bool,
    due: bool,
    stamp: Stamp,
    committed: bool,
    core: &mut K,
    draft: &mut TurnDraft,
    pass: WirePass<F, C, M>,
) -> (WirePass<F, C, M>, Result<(), HistoryFault>)
    requires pass { IsWirePass wire.now.lock pass }
    requires up { IsUp M.Medium K.Meanings core.old (knows pass) node gone due draft.old }
    requires repository { is_broker node.kind ≡ false }
    requires stands { IsTrue M.tells → IsDecidedAs (world_at (knows pass)) stamp committed }
    requires new { IsTrue M.tells → IsNewTo (life_at (knows pass) node) stamp }
    ensures pass { IsWirePass wire.now.lock result.0 }
    ensures up { OnOk result.1 (IsUp M.Medium K.Meanings core.new (knows result.0) node gone true draft.new) }
    ensures known { IsTrue M.tells →
        OnOk result.1 (logs.knows (all_effects (life_at (knows result.0) node)) stamp ≡ true) }
    ensures learning { IsTrue M.tells → Learning (life_at (knows pass) node) (life_at (knows result.0) node) }
    ensures trail { (learned : List _) × Trail node (knows pass) (knows result.0) [] learned [] 0 }
    ensures err { IfErr result.1 (λ f. IsAfter M.Medium K.Meanings f core.new (knows result.0) node draft.old.durable) }
    ensures durable { draft.new.durable ≡ draft.old.durable }
    ensures unwritten { IsUnwritten M.Medium (K.parts core.old).medium (K.parts core.new).medium }
    ensures cause { IsErrOf result.1 fault.Medium →
        Rose (M.faults (K.parts core.old).medium) (M.faults (K.parts core.new).medium) }
{
    let (pass, learned) = wire.learn(rt, node, pass, stamp, committed);
    match learned {
        Err(_) => (pass, Err(HistoryFault::NoMemory)),
        Ok(()) => {
            let gave = core.learn(stamp, committed);
            (pass, added(draft, gave))
        }
    }
}

// The same unless its log knows the attempt. Ok says whether a turn has begun.
fn learn_unknown<K: StoredCore<M>, F: Fates, C: Clock, M: Medium, R: Wait>(
    rt: &R,
    wire: &SharedWire<F, C, M>,
    node: NodeId,
    gone: bool,
    due: bool,
    stamp: Stamp,
    committed: bool,
    core: &mut K,
    draft: &mut TurnDraft,
    pass: WirePass<F, C, M>,
) -> (WirePass<F, C, M>, Result<bool, HistoryFault>)
    requires pass { IsWirePass wire.now.lock pass }
    requires up { IsUp M.Medium K.Meanings core.old (knows pass) node gone due draft.old }
    requires repository { is_broker node.kind ≡ false }
    requires stands { IsTrue M.tells → IsDecidedAs (world_at (knows pass)) stamp committed }
    ensures pass { IsWirePass wire.now.lock result.0 }
    ensures up { IfOk result.1 (λ now. IsUp M.Medium K.Meanings core.new (knows result.0) node gone now draft.new) }
    ensures none { result.1 ≡ Ok false → (draft.new ≡ draft.old) × (due ≡ false) }
    ensures known { IsTrue M.tells →
        OnOk result.1 (logs.knows (all_effects (life_at (knows result.0) node)) stamp ≡ true) }
    ensures learning { IsTrue M.tells → Learning (life_at (knows pass) node) (life_at (knows result.0) node) }
    ensures trail { (learned : List _) × Trail node (knows pass) (knows result.0) [] learned [] 0 }
    ensures err { IfErr result.1 (λ f. IsAfter M.Medium K.Meanings f core.new (knows result.0) node draft.old.durable) }
    ensures durable { draft.new.durable ≡ draft.old.durable }
    ensures unwritten { IsUnwritten M.Medium (K.parts core.old).medium (K.parts core.new).medium }
    ensures cause { IsErrOf result.1 fault.Medium →
        Rose (M.faults (K.parts core.old).medium) (M.faults (K.parts core.new).medium) }
{
    if core.knows(stamp) {
        return (pass, Ok(due));
    }
    let (pass, learned) = learn_one(
        rt, wire, node, gone, due, stamp, committed, core, draft, pass,
    );
    match learned {
        Err(fault) => (pass, Err(fault)),
        Ok(()) => (pass, Ok(true)),
    }
}

// The repository learns each of these decisions that its log doesn't know. Ok says whether a turn has begun.
fn learn_all<K: StoredCore<M>, F: Fates, C: Clock, M: Medium, R: Wait>(
    rt: &R,
    wire: &SharedWire<F, C, M>,
    node: NodeId,
    gone: bool,
    decisions: &[(Stamp, bool)],
    core: &mut K,
    draft: &mut TurnDraft,
    mut pass: WirePass<F, C, M>,
) -> (WirePass<F, C, M>, Result<bool, HistoryFault>)
    requires pass { IsWirePass wire.now.lock pass }
    requires up { IsUp M.Medium K.Meanings core.old (knows pass) node gone false draft.old }
    requires repository { is_broker node.kind ≡ false }
    requires stand { IsTrue M.tells → Stand (world_at (knows pass)) decisions.now }
    ensures pass { IsWirePass wire.now.lock result.0 }
    ensures up { IfOk result.1 (λ now. IsUp M.Medium K.Meanings core.new (knows result.0) node gone now draft.new) }
    ensures none { result.1 ≡ Ok false → draft.new ≡ draft.old }
    ensures known { IsTrue M.tells →
        OnOk result.1 (AreKnown (all_effects (life_at (knows result.0) node)) decisions.now) }
    ensures learning { IsTrue M.tells → Learning (life_at (knows pass) node) (life_at (knows result.0) node) }
    ensures trail { (learned : List _) × Trail node (knows pass) (knows result.0) [] learned [] 0 }
    ensures err { IfErr result.1 (λ f. IsAfter M.Medium K.Meanings f core.new (knows result.0) node draft.old.durable) }
    ensures durable { draft.new.durable ≡ draft.old.durable }
    ensures unwritten { IsUnwritten M.Medium (K.parts core.old).medium (K.parts core.new).medium }
    ensures cause { IsErrOf result.1 fault.Medium →
        Rose (M.faults (K.parts core.old).medium) (M.faults (K.parts core.new).medium) }
{
    let mut due = false;
    for decision in decisions {
        let (back, learned) = learn_unknown(
            rt, wire, node, gone, due, decision.0, decision.1, core, draft, pass,
        );
        pass = back;
        match learned {
            Err(fault) => return (pass, Err(fault)),
            Ok(now) => due = now,
        }
    }
    (pass, Ok(due))
}

/// A repository at work learns these decisions, which their homes took: those that its log doesn't know,
/// in one turn, with one append. If it knows each, there is no turn.
pub fn settle<K: StoredCore<M>, F: Fates, C: Clock, M: Medium, R: Wait>(
    alloc: Global,
    rt: &R,
    wire: &SharedWire<F, C, M>,
    node: NodeId,
    decisions: &[(Stamp, bool)],
    hand: Hand<K>,
    pass: WirePass<F, C, M>,
) -> (WirePass<F, C, M>, Hand<K>)
    requires pass { IsWirePass wire.now.lock pass }
    requires up { IsUp M.Medium K.Meanings hand.core (knows pass) node hand.gone false (no_draft hand.durable) }
    requires repository { is_broker node.kind ≡ false }
    requires stand { IsTrue M.tells → Stand (world_at (knows pass)) decisions.now }
    ensures pass { IsWirePass wire.now.lock result.0 }
    ensures keeps { Keeps M.Medium K.Meanings result.1.condition result.1.core
        (knows result.0) node result.1.gone result.1.durable }
    ensures paid { PaysFor (costs (knows pass).own) (M.faults (K.parts hand.core).medium) (costs (knows result.0).own)
        (M.faults (K.parts result.1.core).medium) }
    ensures whole { IsTrue M.tells → result.1.condition ≢ Condition.Wanting →
        StaysWhole (costs (knows pass).own) (costs (knows result.0).own) (M.reads (K.parts hand.core).medium)
        (M.reads (K.parts result.1.core).medium) }
    ensures passes { IsTrue M.tells → result.1.condition ≢ Condition.Wanting →
        PassesOn node (knows pass) (knows result.0) (M.stages (K.parts hand.core).medium)
        (M.stages (K.parts result.1.core).medium) }
    ensures adds { Adds (knows pass).own (knows result.0).own }
    ensures grown { IsTrue M.tells → result.1.condition ≢ Condition.Wanting →
        Learns (life_at (knows pass) node).gated (life_at (knows result.0) node).gated }
    ensures known { IsTrue M.tells → result.1.condition ≡ Condition.AtWork →
        costs (knows result.0).own ≡ costs (knows pass).own →
        AreKnown (life_at (knows result.0) node).gated decisions.now }
{
    let Hand {
        mut core,
        condition: _,
        gone,
        durable,
    } = hand;
    let mut draft = TurnDraft::new(alloc, durable);
    let (pass, learned) = learn_all(rt, wire, node, gone, decisions, &mut core, &mut draft, pass);
    match learned {
        Err(fault) => give_up(alloc, rt, wire, node, durable, fault, core, pass),
        Ok(due) => {
            if due {
                return end(alloc, rt, wire, node, gone, core, draft, pass);
            }
            (
                pass,
                Hand {
                    core,
                    condition: Condition::AtWork,
                    gone,
                    durable,
                },
            )
        }
    }
}
