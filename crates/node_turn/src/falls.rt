//! What follows a fault in a turn.
ghost use Rattle.std.specs.Prelude.{◌≡◌, ◌≢◌, ◌≤◌, ◌<◌, ◌+◌, ◌-◌, [], true, ℕ, length, IsTrue, OnOk, OnErr};
ghost use Rattle.node_inputs.specs.Words.{knows};
ghost use Rattle.node_inputs.specs.Sights.{IsWirePass, IsOf, Looked, Crashes, life_at, flags_at};
ghost use Rattle.node_inputs.specs.Lives.{IsStruck, IsCause};
ghost use Rattle.node_turn.specs.Conditions.{Keeps};
ghost use Rattle.node_inputs.specs.Costs.{costs, PaysFor, cost_of_cause};
ghost use Rattle.node_inputs.specs.Trails.{Trail};
ghost use Rattle.node_inputs.specs.Entries.{Grew};
ghost use Rattle.node_turn.specs.Settles.{Closes};
ghost use Rattle.node_turn.specs.Windows.{PassesOn};

use crate::conditions::Condition;
use crate::hands::Hand;
use node_inputs::{Clock, DownCause, Fates, Medium, NodeId, SharedWire, StoredCore, WirePass};
use std::alloc::{AllocError, Global};
use std::sync::Wait;

/// The node goes down. It is Wanting where the wire finds no memory for that.
pub fn go_down<K: StoredCore<M>, F: Fates, C: Clock, M: Medium, R: Wait>(
    rt: &R,
    wire: &SharedWire<F, C, M>,
    node: NodeId,
    cause: DownCause,
    durable: usize,
    core: &K,
    pass: WirePass<F, C, M>,
) -> (WirePass<F, C, M>, Condition)
    requires pass { IsWirePass wire.now.lock pass }
    requires struck { IsStruck M.Medium K.Meanings core.now (knows pass) node durable }
    requires cause { IsCause M.Medium cause (K.parts core.now).medium (life_at (knows pass) node) }
    ensures pass { IsWirePass wire.now.lock result.0 }
    ensures keeps { (gone : _) (count : ℕ) → Keeps M.Medium K.Meanings result.1 core.now
        (knows result.0) node gone count }
    ensures stops { result.1 ≢ Condition.AtWork }
    ensures names { result.1 ≢ Condition.Wanting → result.1 ≡ Condition.Down cause }
    ensures trail { (cost : ℕ) × (cost ≤ cost_of_cause cause) ×
        (result.1 ≢ Condition.Wanting → cost ≡ cost_of_cause cause) ×
        Trail node (knows pass) (knows result.0) [] [] [] cost }
    ensures passes { IsTrue M.tells → PassesOn node (knows pass) (knows result.0)
        (M.stages (K.parts core.now).medium) (M.stages (K.parts core.now).medium) }
    ensures closes { IsTrue M.tells → result.1 ≢ Condition.Wanting →
        Closes (life_at (knows pass) node) (life_at (knows result.0) node) }
{
    let (pass, went) = wire.down(rt, node, pass, cause);
    match went {
        Err(_) => (pass, Condition::Wanting),
        Ok(()) => (pass, Condition::Down { cause }),
    }
}

// The node was opened again, and so many effects were found.
fn note_crash<F: Fates, C: Clock, M: Medium, R: Wait>(
    rt: &R,
    wire: &SharedWire<F, C, M>,
    node: NodeId,
    durable: usize,
    found: usize,
    pass: WirePass<F, C, M>,
) -> (WirePass<F, C, M>, Result<(), AllocError>)
    requires pass { IsWirePass wire.now.lock pass }
    requires node { IsOf node (knows pass) }
    requires up { (flags_at (knows pass) node).up ≡ true }
    requires kept { IsTrue M.tells → found - durable ≤ length (life_at (knows pass) node).fresh }
    ensures pass { IsWirePass wire.now.lock result.0 }
    ensures ok { OnOk result.1 (Crashes M.tells node (knows pass) (knows result.0) (found - durable)) }
    ensures err { OnErr result.1 (Looked (knows pass) (knows result.0)) }
{
    let kept = found.saturating_sub(durable);
    match u32::try_from(kept) {
        Err(_) => (pass, Err(AllocError)),
        Ok(kept) => {
            let (pass, noted) = wire.crash(rt, node, pass, kept);
            (pass, noted)
        }
    }
}

/// After a fault of the medium: it is opened anew, and the node with it; or the node goes down.
pub fn open_anew<K: StoredCore<M>, F: Fates, C: Clock, M: Medium, R: Wait>(
    alloc: Global,
    rt: &R,
    wire: &SharedWire<F, C, M>,
    node: NodeId,
    durable: usize,
    core: K,
    pass: WirePass<F, C, M>,
) -> (WirePass<F, C, M>, Hand<K>)
    requires pass { IsWirePass wire.now.lock pass }
    requires struck { IsStruck M.Medium K.Meanings core (knows pass) node durable }
    ensures pass { IsWirePass wire.now.lock result.0 }
    ensures keeps { Keeps M.Medium K.Meanings result.1.condition result.1.core
        (knows result.0) node result.1.gone result.1.durable }
    ensures trail { (cost : ℕ) × Trail node (knows pass) (knows result.0) [] [] [] cost }
    ensures paid { PaysFor (costs (knows pass).own + 1) (M.faults (K.parts core).medium) (costs (knows result.0).own)
        (M.faults (K.parts result.1.core).medium) }
    ensures dear { IsTrue M.tells → result.1.condition ≢ Condition.Wanting →
        costs (knows pass).own < costs (knows result.0).own }
    ensures grew { result.1.condition ≡ Condition.AtWork → Grew (knows pass).own (knows result.0).own }
    ensures passes { IsTrue M.tells → PassesOn node (knows pass) (knows result.0)
        (M.stages (K.parts core).medium) (M.stages (K.parts result.1.core).medium) }
    ensures closes { IsTrue M.tells → result.1.condition ≢ Condition.Wanting →
        Closes (life_at (knows pass) node) (life_at (knows result.0) node) }
{
    let (core, opened) = core.reopen(alloc);
    match opened {
        Ok(found) => {
            let (pass, noted) = note_crash(rt, wire, node, durable, found, pass);
            match noted {
                Ok(()) => (
                    pass,
                    Hand {
                        core,
                        condition: Condition::AtWork,
                        gone: false,
                        durable: found,
                    },
                ),
                Err(_) => (
                    pass,
                    Hand {
                        core,
                        condition: Condition::Wanting,
                        gone: false,
                        durable: 0,
                    },
                ),
            }
        }
        Err(fault) => match fault.down_cause() {
            None => (
                pass,
                Hand {
                    core,
                    condition: Condition::Wanting,
                    gone: false,
                    durable: 0,
                },
            ),
            Some(cause) => {
                let (pass, condition) = go_down(rt, wire, node, cause, durable, &core, pass);
                (
                    pass,
                    Hand {
                        core,
                        condition,
                        gone: false,
                        durable,
                    },
                )
            }
        },
    }
}
