//! The order of a plan's nodes.
ghost use Rattle.std.specs.Prelude.{◌≡◌, ◌<◌, true, IfOk};
ghost use Rattle.plan_form.specs.PlanTexts.{CanRun};
ghost use Rattle.world_core.specs.Legal.{in_plan};
ghost use Rattle.world_core.specs.Nodes.{acts_of};
ghost use Rattle.run_media.specs.Places as order;

use plan_form::Plan;
use pseudo_time::NodeId;
use std::alloc::{AllocError, Global};
use value_form::ActSpec;

/// How many nodes a plan has.
pub fn node_count(plan: &Plan) -> usize
    ensures { result ≡ order.node_count plan.now }
{
    usize::from(plan.repositories) + usize::from(plan.brokers)
}

/// The node in this place of a plan: repositories first, rising.
pub fn node_at(plan: &Plan, place: usize) -> NodeId
    requires plan { CanRun plan.now }
    requires place { place < order.node_count plan.now }
    ensures place { result ≡ order.node_at plan.now place }
    ensures named { in_plan plan.now result ≡ true }
{
    let repositories = usize::from(plan.repositories);
    if place < repositories {
        NodeId::repository((place + 1) as u8)
    } else {
        NodeId::broker((place - repositories + 1) as u8)
    }
}

/// A broker's own acts of a plan.
pub fn own_acts(alloc: Global, number: u8, acts: &[ActSpec]) -> Result<Vec<ActSpec>, AllocError>
    ensures { IfOk result (λ own. own.items ≡ acts_of number acts.now) }
{
    let mut own = Vec::new(alloc);
    for act in acts {
        if act.broker == number {
            own.push(act.copy(alloc)?)?;
        }
    }
    Ok(own)
}
