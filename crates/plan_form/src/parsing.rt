//! Reads a plan.
ghost use Rattle.plan_form.specs.PlanFaults.{Parses};

use crate::acts::acts_of;
use crate::heads::{fault, head_of};
use crate::plan_faults::{PlanFault, PlanKind};
use crate::plans::Plan;
use std::alloc::Global;
use value_form::Items;

const MOST_BYTES: usize = 4_194_304;

const HEAD_LINES: u32 = 4;

/// The plan that the bytes are. It takes time linear in their number.
pub fn parse(alloc: Global, bytes: &[u8]) -> Result<Plan, PlanFault>
    ensures { Parses bytes.now result }
{
    if bytes.len() > MOST_BYTES {
        return Err(fault(0, PlanKind::Size));
    }
    let (head, body) = match head_of(bytes) {
        Ok(read) => read,
        Err(wrong) => return Err(wrong),
    };
    match acts_of(alloc, body, head.repositories, head.brokers, HEAD_LINES) {
        Ok(acts) => Ok(Plan {
            run: head.run,
            repositories: head.repositories,
            brokers: head.brokers,
            acts: Items::of(acts),
        }),
        Err(wrong) => Err(wrong),
    }
}
