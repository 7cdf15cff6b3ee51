//! The turn of a node that is up.
ghost use Rattle.std.specs.Prelude.{◌≡◌, ◌≢◌, ◌||◌, ◌≤◌, ◌<◌, ◌++◌, [], true, false, ℕ, List, IsTrue, MatchBool};
ghost use Rattle.node_inputs.specs.Causes.{Rose};
ghost use Rattle.node_inputs.specs.Lists.{Has};
ghost use Rattle.node_inputs.specs.NodeNames.{is_broker};
ghost use Rattle.node_inputs.specs.Words.{knows};
ghost use Rattle.node_inputs.specs.Changes.{owed};
ghost use Rattle.node_inputs.specs.Sights.{IsWirePass, life_at, world_at};
ghost use Rattle.node_inputs.specs.Walks.{all_effects};
ghost use Rattle.node_inputs.specs.Lives.{IsUp, IsAfter, no_draft};
ghost use Rattle.node_turn.specs.Conditions.{Keeps, NamesPage};
ghost use Rattle.node_inputs.specs.Costs.{costs, PaysFor};
ghost use Rattle.node_inputs.specs.Trails.{Trail};
ghost use Rattle.node_turn.specs.Seeks.{HasTested};
ghost use Rattle.node_turn.specs.Nodes.{StaysWhole};
ghost use Rattle.node_turn.specs.Settles.{Closes};
ghost use Rattle.node_inputs.specs.Entries.{Adds, Grew, IsQuiet};
ghost use Rattle.node_turn.specs.Windows.{PassesOn};

use crate::closings::close;
use crate::conditions::Condition;
use crate::falls::{go_down, open_anew};
use crate::hands::Hand;
use crate::lookups::{is_broker, look_up_all};
use node_inputs::{
    Clock, DownCause, Fates, HistoryFault, Medium, NodeId, SharedWire, StoreFault, StoredCore,
    TurnDraft, WirePass, begin, take_more,
};
use std::alloc::Global;
use std::sync::Wait;

/// What follows a fault of the core.
pub fn give_up<K: StoredCore<M>, F: Fates, C: Clock, M: Medium, R: Wait>(
    alloc: Global,
    rt: &R,
    wire: &SharedWire<F, C, M>,
    node: NodeId,
    durable: usize,
    fault: HistoryFault,
    core: K,
    pass: WirePass<F, C, M>,
) -> (WirePass<F, C, M>, Hand<K>)
    requires pass { IsWirePass wire.now.lock pass }
    requires after { IsAfter M.Medium K.Meanings fault core (knows pass) node durable }
    ensures pass { IsWirePass wire.now.lock result.0 }
    ensures keeps { Keeps M.Medium K.Meanings result.1.condition result.1.core
        (knows result.0) node result.1.gone result.1.durable }
    ensures trail { (cost : ℕ) × Trail node (knows pass) (knows result.0) [] [] [] cost }
    ensures paid { (before : ℕ) → (fault ≡ HistoryFault.Medium → Rose before (M.faults (K.parts core).medium)) →
        before ≤ M.faults (K.parts core).medium →
        PaysFor (costs (knows pass).own) before (costs (knows result.0).own) (M.faults (K.parts result.1.core).medium) }
    ensures dear { IsTrue M.tells → result.1.condition ≢ Condition.Wanting →
        costs (knows pass).own < costs (knows result.0).own }
    ensures grew { result.1.condition ≡ Condition.AtWork → Grew (knows pass).own (knows result.0).own }
    ensures wanting { fault ≡ HistoryFault.NoMemory → result.1.condition ≡ Condition.Wanting }
    ensures names { NamesPage fault result.1.condition }
    ensures passes { IsTrue M.tells → PassesOn node (knows pass) (knows result.0)
        (M.stages (K.parts core).medium) (M.stages (K.parts result.1.core).medium) }
    ensures closes { IsTrue M.tells → result.1.condition ≢ Condition.Wanting →
        Closes (life_at (knows pass) node) (life_at (knows result.0) node) }
{
    match fault {
        HistoryFault::NoMemory => (
            pass,
            Hand {
                core,
                condition: Condition::Wanting,
                gone: false,
                durable: 0,
            },
        ),
        HistoryFault::Medium => open_anew(alloc, rt, wire, node, durable, core, pass),
        HistoryFault::Damaged { page } => {
            let cause = DownCause::Damaged { page };
            let (pass, condition) = go_down(rt, wire, node, cause, durable, &core, pass);
            (
                pass,
                Hand {
                    core,
                    condition,
                    gone: false,
                    durable,
                },
            )
        }
    }
}

/// The end of a turn: the append and the gate, or what follows a fault.
pub fn end<K: StoredCore<M>, F: Fates, C: Clock, M: Medium, R: Wait>(
    alloc: Global,
    rt: &R,
    wire: &SharedWire<F, C, M>,
    node: NodeId,
    gone: bool,
    core: K,
    draft: TurnDraft,
    pass: WirePass<F, C, M>,
) -> (WirePass<F, C, M>, Hand<K>)
    requires pass { IsWirePass wire.now.lock pass }
    requires up { IsUp M.Medium K.Meanings core (knows pass) node gone true draft }
    ensures pass { IsWirePass wire.now.lock result.0 }
    ensures keeps { Keeps M.Medium K.Meanings result.1.condition result.1.core
        (knows result.0) node result.1.gone result.1.durable }
    ensures sends { (sent : List _) × (cost : ℕ) × Trail node (knows pass) (knows result.0) sent [] [] cost ×
        (IsTrue M.tells → (out : _) → Has out sent → Has out (owed (world_at (knows pass)) node)) }
    ensures paid { PaysFor (costs (knows pass).own) (M.faults (K.parts core).medium) (costs (knows result.0).own)
        (M.faults (K.parts result.1.core).medium) }
    ensures whole { IsTrue M.tells → result.1.condition ≢ Condition.Wanting →
        StaysWhole (costs (knows pass).own) (costs (knows result.0).own) (M.reads (K.parts core).medium)
        (M.reads (K.parts result.1.core).medium) }
    ensures passes { IsTrue M.tells → PassesOn node (knows pass) (knows result.0)
        (M.stages (K.parts core).medium) (M.stages (K.parts result.1.core).medium) }
    ensures closes { IsTrue M.tells → result.1.condition ≢ Condition.Wanting →
        Closes (life_at (knows pass) node) (life_at (knows result.0) node) }
    ensures gated { IsTrue M.tells → result.1.condition ≡ Condition.AtWork →
        costs (knows result.0).own ≡ costs (knows pass).own →
        (life_at (knows result.0) node).gated ≡ all_effects (life_at (knows pass) node) }
{
    let durable = draft.durable();
    let (pass, core, closed) = close(alloc, rt, wire, node, gone, core, draft, pass);
    match closed {
        Ok(durable) => (
            pass,
            Hand {
                core,
                condition: Condition::AtWork,
                gone,
                durable,
            },
        ),
        Err(fault) => match fault {
            StoreFault::NoMemory => (
                pass,
                Hand {
                    core,
                    condition: Condition::Wanting,
                    gone: false,
                    durable: 0,
                },
            ),
            StoreFault::Medium => open_anew(alloc, rt, wire, node, durable, core, pass),
            StoreFault::Full { pages } => {
                let cause = DownCause::Full { pages };
                let (pass, condition) = go_down(rt, wire, node, cause, durable, &core, pass);
                (
                    pass,
                    Hand {
                        core,
                        condition,
                        gone: false,
                        durable,
                    },
                )
            }
        },
    }
}

// The rest of a turn that has begun.
fn finish<K: StoredCore<M>, F: Fates, C: Clock, M: Medium, R: Wait>(
    alloc: Global,
    rt: &R,
    wire: &SharedWire<F, C, M>,
    node: NodeId,
    gone: bool,
    core: K,
    draft: TurnDraft,
    pass: WirePass<F, C, M>,
) -> (WirePass<F, C, M>, Hand<K>)
    requires pass { IsWirePass wire.now.lock pass }
    requires up { IsUp M.Medium K.Meanings core (knows pass) node gone true draft }
    requires gone { is_broker node.kind ≡ true → gone ≡ true }
    ensures pass { IsWirePass wire.now.lock result.0 }
    ensures keeps { Keeps M.Medium K.Meanings result.1.condition result.1.core
        (knows result.0) node result.1.gone result.1.durable }
    ensures paid { PaysFor (costs (knows pass).own) (M.faults (K.parts core).medium) (costs (knows result.0).own)
        (M.faults (K.parts result.1.core).medium) }
    ensures whole { IsTrue M.tells → result.1.condition ≢ Condition.Wanting →
        StaysWhole (costs (knows pass).own) (costs (knows result.0).own) (M.reads (K.parts core).medium)
        (M.reads (K.parts result.1.core).medium) }
    ensures passes { IsTrue M.tells → result.1.condition ≢ Condition.Wanting →
        PassesOn node (knows pass) (knows result.0) (M.stages (K.parts core).medium)
        (M.stages (K.parts result.1.core).medium) }
    ensures tested { IsTrue M.tells → is_broker node.kind ≡ false → HasTested node (knows pass) (knows result.0) }
    ensures adds { Adds (knows pass).own (knows result.0).own }
{
    let mut core = core;
    let mut draft = draft;
    let durable = draft.durable();
    let (pass, took) = take_more(rt, wire, node, gone, &mut core, &mut draft, pass);
    if let Err(fault) = took {
        return give_up(alloc, rt, wire, node, durable, fault, core, pass);
    }
    let (pass, sought) = look_up_all(rt, wire, node, gone, &mut core, &mut draft, pass);
    if let Err(fault) = sought {
        return give_up(alloc, rt, wire, node, durable, fault, core, pass);
    }
    end(alloc, rt, wire, node, gone, core, draft, pass)
}

// Whether a node that was at work for a visit has gone, if it is a broker.
fn has_gone(node: NodeId, gone: bool) -> bool
    ensures { result ≡ (gone || is_broker node.kind) }
{
    gone || is_broker(node)
}

/// One turn. True where nothing was due.
pub fn work<K: StoredCore<M>, F: Fates, C: Clock, M: Medium, R: Wait>(
    alloc: Global,
    rt: &R,
    wire: &SharedWire<F, C, M>,
    node: NodeId,
    hand: Hand<K>,
    pass: WirePass<F, C, M>,
) -> (WirePass<F, C, M>, Hand<K>, bool)
    requires pass { IsWirePass wire.now.lock pass }
    requires up { IsUp M.Medium K.Meanings hand.core (knows pass) node hand.gone false (no_draft hand.durable) }
    ensures pass { IsWirePass wire.now.lock result.0 }
    ensures keeps { Keeps M.Medium K.Meanings result.1.condition result.1.core
        (knows result.0) node result.1.gone result.1.durable }
    ensures paid { PaysFor (costs (knows pass).own) (M.faults (K.parts hand.core).medium) (costs (knows result.0).own)
        (M.faults (K.parts result.1.core).medium) }
    ensures whole { IsTrue M.tells → result.1.condition ≢ Condition.Wanting →
        StaysWhole (costs (knows pass).own) (costs (knows result.0).own) (M.reads (K.parts hand.core).medium)
        (M.reads (K.parts result.1.core).medium) }
    ensures passes { IsTrue M.tells → result.1.condition ≢ Condition.Wanting →
        PassesOn node (knows pass) (knows result.0) (M.stages (K.parts hand.core).medium)
        (M.stages (K.parts result.1.core).medium) }
    ensures tested { IsTrue M.tells → is_broker node.kind ≡ false → HasTested node (knows pass) (knows result.0) }
    ensures adds { Adds (knows pass).own (knows result.0).own }
    ensures quiet { MatchBool result.2 (IsQuiet node (knows pass) (knows result.0) ×
        (result.1.condition ≡ Condition.AtWork)) (result.1.condition ≡ Condition.AtWork →
        Grew (knows pass).own (knows result.0).own) }
{
    let Hand {
        mut core,
        condition,
        gone,
        durable,
    } = hand;
    let mut draft = TurnDraft::new(alloc, durable);
    let (pass, begun) = begin(rt, wire, node, gone, &mut core, &mut draft, pass);
    let gone = has_gone(node, gone);
    match begun {
        Err(fault) => {
            let (pass, hand) = give_up(alloc, rt, wire, node, durable, fault, core, pass);
            (pass, hand, false)
        }
        Ok(started) => {
            if started {
                let (pass, hand) = finish(alloc, rt, wire, node, gone, core, draft, pass);
                return (pass, hand, false);
            }
            (
                pass,
                Hand {
                    core,
                    condition: Condition::AtWork,
                    gone,
                    durable,
                },
                true,
            )
        }
    }
}
