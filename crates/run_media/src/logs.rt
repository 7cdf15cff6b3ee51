//! The nodes of a plan, with the logs of what was opened.
ghost use Rattle.std.specs.Prelude.{◌≡◌, length, IfOk};
ghost use Rattle.plan_form.specs.PlanTexts.{CanRun};
ghost use Rattle.world_core.specs.Legal.{JustNodes};
ghost use Rattle.run_media.specs.Openings.{log_in, opened_from};
ghost use Rattle.run_media.specs.Places.{node_count};

use crate::openings::Opening;
use crate::places::node_at;
use effect_form::Effect;
use medium_port::Medium;
use plan_form::Plan;
use std::alloc::{AllocError, Global};
use value_form::Items;
use world_core::Opened;

fn copies(alloc: Global, effects: &[Effect]) -> Result<Vec<Effect>, AllocError>
    ensures { IfOk result (λ copied. copied.items ≡ effects.now) }
{
    let mut copied = Vec::new(alloc);
    for effect in effects {
        copied.push(effect.copy(alloc)?)?;
    }
    Ok(copied)
}

// The log with which a node is opened: one that can't be opened has none.
fn log_of<M: Medium>(alloc: Global, opening: &Opening<M>) -> Result<Vec<Effect>, AllocError>
    ensures { IfOk result (λ log. log.items ≡ log_in opening.now) }
{
    match opening {
        Opening::Open(_, effects) => copies(alloc, effects.as_slice()),
        _ => Ok(Vec::new(alloc)),
    }
}

/// The plan's nodes in their order, each with the log of what was opened.
pub fn opened_nodes<M: Medium>(
    alloc: Global,
    plan: &Plan,
    openings: &[Opening<M>],
) -> Result<Vec<Opened>, AllocError>
    requires plan { CanRun plan.now }
    requires count { length openings.now ≡ node_count plan.now }
    ensures opened { IfOk result (λ opened. opened.items ≡ opened_from plan.now 0 openings.now) }
    ensures nodes { IfOk result (λ opened. JustNodes plan.now opened.items) }
{
    let mut opened = Vec::new(alloc);
    for place in 0..openings.len() {
        let node = node_at(plan, place);
        let log = log_of(alloc, &openings[place])?;
        opened.push(Opened {
            node,
            effects: Items::of(log),
        })?;
    }
    Ok(opened)
}
