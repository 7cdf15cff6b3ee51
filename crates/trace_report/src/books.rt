//! The acts that each broker has begun.
ghost use Rattle.std.specs.Prelude.{◌≡◌, ◌≤◌, length, map, reverse, IfOk, OnOk};
ghost use Rattle.plan_form.specs.PlanTexts.{CanRun};
ghost use Rattle.world_core.specs.Nodes as nodes;
ghost use Rattle.trace_report.specs.Acts as acts;
ghost use Rattle.trace_report.specs.Begun.{kept, act_parts};
ghost use Rattle.trace_report.specs.Books as spec;
ghost use Rattle.trace_report.specs.Reports.{logs_by};

use crate::begun::{BegunAct, enter};
use crate::node_logs::log_of;
use broker_core::counted_effects;
use effect_form::Effect;
use plan_form::Plan;
use pseudo_time::NodeId;
use std::alloc::{AllocError, Global};
use value_form::ActSpec;
use world_core::Opened;

// Copies of a broker's own acts.
fn acts_of(alloc: Global, number: u8, acts: &[ActSpec]) -> Result<Vec<ActSpec>, AllocError>
    ensures { IfOk result (λ own. own.items ≡ nodes.acts_of number acts.now) }
{
    let mut own = Vec::new(alloc);
    for act in acts {
        if act.broker == number {
            own.push(act.copy(alloc)?)?;
        }
    }
    Ok(own)
}

// Reads an effect, if it counts.
fn enter_if(
    alloc: Global,
    begun: &mut Vec<BegunAct>,
    counts: bool,
    effect: &Effect,
) -> Result<(), AllocError>
    ensures { OnOk result (kept begun.new.items ≡ spec.entered_if counts effect.now (kept begun.old.items)) }
{
    if counts {
        enter(alloc, begun, effect)?;
    }
    Ok(())
}

// Reads the effects that count, by a flag for each.
fn read_off(alloc: Global, flags: &[bool], effects: &[Effect]) -> Result<Vec<BegunAct>, AllocError>
    requires { length flags.now ≡ length effects.now }
    ensures { IfOk result (λ begun. kept begun.items ≡ spec.read_off (reverse flags.now) (reverse effects.now)) }
{
    let mut begun = Vec::new(alloc);
    for (place, effect) in effects.iter().enumerate() {
        enter_if(alloc, &mut begun, flags[place], effect)?;
    }
    Ok(begun)
}

// The acts that a broker has begun, the first one first.
fn begun_by(
    alloc: Global,
    plan: &Plan,
    logs: &[Opened],
    number: u8,
) -> Result<Vec<BegunAct>, AllocError>
    requires whole { CanRun plan.now }
    requires low { 1 ≤ number }
    requires high { number ≤ 16 }
    ensures { IfOk result (λ begun. kept begun.items ≡ map act_parts
        (acts.begun_acts plan.now (logs_by logs.now) number)) }
{
    let own = acts_of(alloc, number, plan.acts.as_slice())?;
    let log = log_of(logs, NodeId::broker(number));
    let flags = counted_effects(alloc, number, plan.run, own, log)?;
    read_off(alloc, flags.as_slice(), log)
}

/// The acts that the brokers of a plan have begun, those of the last broker first, each broker's in
/// their order.
pub fn begun_in(alloc: Global, plan: &Plan, logs: &[Opened]) -> Result<Vec<BegunAct>, AllocError>
    requires { CanRun plan.now }
    ensures { IfOk result (λ begun. kept begun.items ≡ map act_parts
        (spec.begun_to plan.now (logs_by logs.now) plan.now.brokers)) }
{
    let mut all = Vec::new(alloc);
    for count in 0..plan.brokers {
        let mut begun = begun_by(alloc, plan, logs, plan.brokers - count)?;
        all.append(&mut begun)?;
    }
    Ok(all)
}
