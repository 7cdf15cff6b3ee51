//! Why no run of a plan begins over opened media.
ghost use Rattle.std.specs.Prelude.{◌≡◌, ◌≤◌, length, true, All};
ghost use Rattle.effect_form.specs.Effects.{AreEffects};
ghost use Rattle.plan_form.specs.PlanTexts.{CanRun};
ghost use Rattle.world_core.specs.Legal.{in_plan};
ghost use Rattle.run_media.specs.Places.{node_count};
ghost use Rattle.run_media.specs.Openings.{IsRefusalFor, RefusesLog, Refuses, FirstRefusal, IsInRange};

use crate::openings::{Opening, Refusal};
use crate::places::{node_at, own_acts};
use broker_core::{Broker, ResumeFault};
use effect_form::Effect;
use medium_port::Medium;
use plan_form::Plan;
use pseudo_time::{NodeId, NodeKind};
use std::alloc::Global;

// What opening a broker answered.
fn refusal_for(fault: ResumeFault) -> Refusal
    ensures { IsRefusalFor fault result }
{
    match fault {
        ResumeFault::NoMemory => Refusal::NoMemory,
        ResumeFault::OldRun { latest } => Refusal::Resume(ResumeFault::OldRun { latest }),
        ResumeFault::OtherPlan { index } => Refusal::Resume(ResumeFault::OtherPlan { index }),
    }
}

// Why a broker can't resume from its log in a run of this plan.
fn broker_refusal(alloc: Global, plan: &Plan, number: u8, effects: &[Effect]) -> Option<Refusal>
    requires plan { CanRun plan.now }
    requires low { 1 ≤ number }
    requires high { number ≤ 16 }
    requires in_range { AreEffects effects.now }
    ensures { RefusesLog plan.now number effects.now result }
{
    // An empty log refuses no plan, so the acts aren't copied for it.
    if effects.is_empty() {
        return None;
    }
    let Ok(acts) = own_acts(alloc, number, plan.acts.as_slice()) else {
        return Some(Refusal::NoMemory);
    };
    match Broker::open(alloc, number, plan.run, acts.as_slice(), effects) {
        Ok(_) => None,
        Err(fault) => Some(refusal_for(fault)),
    }
}

// Why the node can't resume from its log in a run of this plan.
fn refusal_of<M: Medium>(
    alloc: Global,
    plan: &Plan,
    node: NodeId,
    opening: &Opening<M>,
) -> Option<Refusal>
    requires plan { CanRun plan.now }
    requires node { in_plan plan.now node ≡ true }
    requires in_range { IsInRange opening.now }
    ensures { Refuses plan.now node opening.now result }
{
    match opening {
        Opening::Wanting(_) => Some(Refusal::NoMemory),
        Opening::Shut(_, _) => None,
        Opening::Open(_, effects) => match node.kind {
            NodeKind::Repository => None,
            NodeKind::Broker => broker_refusal(alloc, plan, node.number, effects.as_slice()),
        },
    }
}

/// Why no run of the plan begins: the first broker whose log shows a later run or another plan, or
/// that memory ran out before it.
pub fn first_refusal<M: Medium>(
    alloc: Global,
    plan: &Plan,
    openings: &[Opening<M>],
) -> Option<Refusal>
    requires plan { CanRun plan.now }
    requires count { length openings.now ≡ node_count plan.now }
    requires in_range { All IsInRange openings.now }
    ensures { FirstRefusal plan.now openings.now result }
{
    for place in 0..openings.len() {
        let node = node_at(plan, place);
        let found = refusal_of(alloc, plan, node, &openings[place]);
        if found.is_some() {
            return found;
        }
    }
    None
}
