//! The visits that give a node its inputs, each followed by what its core gives.
ghost use Rattle.std.specs.Prelude.{◌≡◌, ◌||◌, ◌++◌, [], true, false, Ok, Err, IfOk, IfErr, OnOk, IsErrOf};
ghost use Rattle.pseudo_time.specs.Nodes.{is_broker};
ghost use Rattle.stream_port.specs.Causes.{Rose};
ghost use Rattle.object_history.specs.declared.steps.HistoryFault.TheVariants as fault;
ghost use Rattle.seat_lock.specs.Words.{knows};
ghost use Rattle.world_core.specs.Legal.{is_behind};
ghost use Rattle.wire_lock.specs.Sights.{IsWirePass, world_at};
ghost use Rattle.node_inputs.specs.Lives.{IsUp, IsAfter, IsUnwritten};
ghost use Rattle.node_inputs.specs.Trails.{Trail};
ghost use Rattle.node_inputs.specs.Came.{arrived, Took};
ghost use Rattle.node_inputs.specs.Entries.{Grew, IsQuiet};

use crate::cores::StoredCore;
use crate::drafts::TurnDraft;
use medium_port::Medium;
use message_form::Turn;
use object_history::HistoryFault;
use pseudo_time::{NodeId, NodeKind};
use std::sync::Wait;
use stream_port::{Clock, Fates};
use wire_core::Taken;
use wire_lock::{SharedWire, WirePass};

// Adds what the core gave.
pub fn added(draft: &mut TurnDraft, gave: Result<Turn, HistoryFault>) -> Result<(), HistoryFault>
    ensures ok { OnOk result (IfOk gave (λ turn.
        draft.new ≡ record {
          durable = draft.old.durable;
          effects = draft.old.effects ++ turn.effects;
          outs = draft.old.outs ++ turn.outs;
        })) }
    ensures err { IfErr gave (λ f. result ≡ Err f) }
    ensures wanting { IfOk gave (λ turn. IfErr result (λ f. f ≡ HistoryFault.NoMemory)) }
    ensures durable { draft.new.durable ≡ draft.old.durable }
{
    let turn = gave?;
    if draft.add(turn).is_err() {
        return Err(HistoryFault::NoMemory);
    }
    Ok(())
}

/// A broker goes.
fn go<K: StoredCore<M>, F: Fates, C: Clock, M: Medium, R: Wait>(
    rt: &R,
    wire: &SharedWire<F, C, M>,
    node: NodeId,
    core: &mut K,
    draft: &mut TurnDraft,
    pass: WirePass<F, C, M>,
) -> (WirePass<F, C, M>, Result<(), HistoryFault>)
    requires pass { IsWirePass wire.now.lock pass }
    requires up { IsUp M.Medium K.Meanings core.old (knows pass) node false false draft.old }
    requires broker { is_broker node.kind ≡ true }
    ensures pass { IsWirePass wire.now.lock result.0 }
    ensures up { OnOk result.1 (IsUp M.Medium K.Meanings core.new (knows result.0) node true true draft.new) }
    ensures grew { OnOk result.1 (Grew (knows pass).own (knows result.0).own) }
    ensures err { IfErr result.1 (λ f. IsAfter M.Medium K.Meanings f core.new (knows result.0) node draft.old.durable) }
    ensures durable { draft.new.durable ≡ draft.old.durable }
    ensures trail { Trail node (knows pass) (knows result.0) [] [] [] 0 }
    ensures unwritten { IsUnwritten M.Medium (K.parts core.old).medium (K.parts core.new).medium }
    ensures cause { IsErrOf result.1 fault.Medium →
        Rose (M.faults (K.parts core.old).medium) (M.faults (K.parts core.new).medium) }
{
    let (pass, went) = wire.go(rt, node, pass);
    match went {
        Err(_) => (pass, Err(HistoryFault::NoMemory)),
        Ok(()) => {
            let gave = core.go();
            (pass, added(draft, gave))
        }
    }
}

/// A node hears the last tick, which it hasn't heard.
fn hear<K: StoredCore<M>, F: Fates, C: Clock, M: Medium, R: Wait>(
    rt: &R,
    wire: &SharedWire<F, C, M>,
    node: NodeId,
    gone: bool,
    core: &mut K,
    draft: &mut TurnDraft,
    pass: WirePass<F, C, M>,
) -> (WirePass<F, C, M>, Result<(), HistoryFault>)
    requires pass { IsWirePass wire.now.lock pass }
    requires up { IsUp M.Medium K.Meanings core.old (knows pass) node gone false draft.old }
    requires behind { is_behind (world_at (knows pass)) node ≡ true }
    ensures pass { IsWirePass wire.now.lock result.0 }
    ensures up { OnOk result.1 (IsUp M.Medium K.Meanings core.new (knows result.0) node gone true draft.new) }
    ensures grew { OnOk result.1 (Grew (knows pass).own (knows result.0).own) }
    ensures err { IfErr result.1 (λ f. IsAfter M.Medium K.Meanings f core.new (knows result.0) node draft.old.durable) }
    ensures durable { draft.new.durable ≡ draft.old.durable }
    ensures trail { Trail node (knows pass) (knows result.0) [] [] [] 0 }
    ensures unwritten { IsUnwritten M.Medium (K.parts core.old).medium (K.parts core.new).medium }
    ensures cause { IsErrOf result.1 fault.Medium →
        Rose (M.faults (K.parts core.old).medium) (M.faults (K.parts core.new).medium) }
{
    let (pass, heard) = wire.hear(rt, node, pass);
    match heard {
        Err(_) => (pass, Err(HistoryFault::NoMemory)),
        Ok(moment) => {
            let gave = core.hear(moment);
            (pass, added(draft, gave))
        }
    }
}

/// What taking came to.
#[derive(Clone, Copy, Debug, PartialEq, Eq)]
pub enum Came {
    Behind,
    Nothing,
    Arrived,
}

/// Takes a copy that is due. `due` says whether a turn has begun.
fn take<K: StoredCore<M>, F: Fates, C: Clock, M: Medium, R: Wait>(
    rt: &R,
    wire: &SharedWire<F, C, M>,
    node: NodeId,
    gone: bool,
    due: bool,
    core: &mut K,
    draft: &mut TurnDraft,
    pass: WirePass<F, C, M>,
) -> (WirePass<F, C, M>, Result<Came, HistoryFault>)
    requires pass { IsWirePass wire.now.lock pass }
    requires up { IsUp M.Medium K.Meanings core.old (knows pass) node gone due draft.old }
    requires gone { is_broker node.kind ≡ true → gone ≡ true }
    ensures pass { IsWirePass wire.now.lock result.0 }
    ensures up { IfOk result.1 (λ came. IsUp M.Medium K.Meanings core.new (knows result.0) node gone
        (arrived came || due) draft.new) }
    ensures came { IfOk result.1 (Took node (knows pass) (knows result.0)) }
    ensures err { IfErr result.1 (λ f. IsAfter M.Medium K.Meanings f core.new (knows result.0) node draft.old.durable) }
    ensures draft { IfOk result.1 (λ came. arrived came ≡ false → draft.new ≡ draft.old) }
    ensures durable { draft.new.durable ≡ draft.old.durable }
    ensures trail { Trail node (knows pass) (knows result.0) [] [] [] 0 }
    ensures unwritten { IsUnwritten M.Medium (K.parts core.old).medium (K.parts core.new).medium }
    ensures cause { IsErrOf result.1 fault.Medium →
        Rose (M.faults (K.parts core.old).medium) (M.faults (K.parts core.new).medium) }
{
    let (pass, taken, _) = wire.take(rt, node, pass);
    match taken {
        Err(_) => (pass, Err(HistoryFault::NoMemory)),
        Ok(came) => match came {
            Taken::Behind => (pass, Ok(Came::Behind)),
            Taken::Nothing => (pass, Ok(Came::Nothing)),
            Taken::Arrived(arrival) => {
                let gave = core.take(arrival.from, &arrival.message);
                match added(draft, gave) {
                    Err(fault) => (pass, Err(fault)),
                    Ok(()) => (pass, Ok(Came::Arrived)),
                }
            }
        },
    }
}

/// Begins a turn: goes, takes a copy, or hears the last tick. False where nothing was due.
pub fn begin<K: StoredCore<M>, F: Fates, C: Clock, M: Medium, R: Wait>(
    rt: &R,
    wire: &SharedWire<F, C, M>,
    node: NodeId,
    gone: bool,
    core: &mut K,
    draft: &mut TurnDraft,
    pass: WirePass<F, C, M>,
) -> (WirePass<F, C, M>, Result<bool, HistoryFault>)
    requires pass { IsWirePass wire.now.lock pass }
    requires up { IsUp M.Medium K.Meanings core.old (knows pass) node gone false draft.old }
    ensures pass { IsWirePass wire.now.lock result.0 }
    ensures up { IfOk result.1 (λ begun. IsUp M.Medium K.Meanings core.new (knows result.0) node
        (gone || is_broker node.kind) begun draft.new) }
    ensures grew { result.1 ≡ Ok true → Grew (knows pass).own (knows result.0).own }
    ensures quiet { result.1 ≡ Ok false → IsQuiet node (knows pass) (knows result.0) × (draft.new ≡ draft.old) }
    ensures err { IfErr result.1 (λ f. IsAfter M.Medium K.Meanings f core.new (knows result.0) node draft.old.durable) }
    ensures durable { draft.new.durable ≡ draft.old.durable }
    ensures trail { Trail node (knows pass) (knows result.0) [] [] [] 0 }
    ensures unwritten { IsUnwritten M.Medium (K.parts core.old).medium (K.parts core.new).medium }
    ensures cause { IsErrOf result.1 fault.Medium →
        Rose (M.faults (K.parts core.old).medium) (M.faults (K.parts core.new).medium) }
{
    if node.kind == NodeKind::Broker && !gone {
        let (pass, went) = go(rt, wire, node, core, draft, pass);
        return match went {
            Err(fault) => (pass, Err(fault)),
            Ok(()) => (pass, Ok(true)),
        };
    }
    let (pass, came) = take(rt, wire, node, gone, false, core, draft, pass);
    match came {
        Err(fault) => (pass, Err(fault)),
        Ok(Came::Nothing) => (pass, Ok(false)),
        Ok(Came::Arrived) => (pass, Ok(true)),
        Ok(Came::Behind) => {
            let (pass, heard) = hear(rt, wire, node, gone, core, draft, pass);
            match heard {
                Err(fault) => (pass, Err(fault)),
                Ok(()) => (pass, Ok(true)),
            }
        }
    }
}

/// Takes up to fifteen copies more that are due.
pub fn take_more<K: StoredCore<M>, F: Fates, C: Clock, M: Medium, R: Wait>(
    rt: &R,
    wire: &SharedWire<F, C, M>,
    node: NodeId,
    gone: bool,
    core: &mut K,
    draft: &mut TurnDraft,
    mut pass: WirePass<F, C, M>,
) -> (WirePass<F, C, M>, Result<(), HistoryFault>)
    requires pass { IsWirePass wire.now.lock pass }
    requires up { IsUp M.Medium K.Meanings core.old (knows pass) node gone true draft.old }
    requires gone { is_broker node.kind ≡ true → gone ≡ true }
    ensures pass { IsWirePass wire.now.lock result.0 }
    ensures up { OnOk result.1 (IsUp M.Medium K.Meanings core.new (knows result.0) node gone true draft.new) }
    ensures err { IfErr result.1 (λ f. IsAfter M.Medium K.Meanings f core.new (knows result.0) node draft.old.durable) }
    ensures durable { draft.new.durable ≡ draft.old.durable }
    ensures trail { Trail node (knows pass) (knows result.0) [] [] [] 0 }
    ensures unwritten { IsUnwritten M.Medium (K.parts core.old).medium (K.parts core.new).medium }
    ensures cause { IsErrOf result.1 fault.Medium →
        Rose (M.faults (K.parts core.old).medium) (M.faults (K.parts core.new).medium) }
{
    for _ in 0..15u32 {
        let (back, came) = take(rt, wire, node, gone, true, core, draft, pass);
        pass = back;
        match came {
            Err(fault) => return (pass, Err(fault)),
            Ok(Came::Arrived) => {}
            Ok(_) => return (pass, Ok(())),
        }
    }
    (pass, Ok(()))
}
