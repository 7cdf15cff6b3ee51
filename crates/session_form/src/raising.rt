//! The plan of a batch above all that its logs have.
ghost use Rattle.std.specs.Prelude.{◌≡◌, ◌+◌, ◌<◌, ◌^◌, ◌-◌, ◌↔◌, map, IsTrue};
ghost use Rattle.plan_form.specs.PlanTexts.{CanRun};
ghost use Rattle.session_form.specs.Heights as spec;
ghost use Rattle.session_form.specs.Heights.{HasRoom, raised_act};

use crate::heights::Heights;
use plan_form::Plan;
use pseudo_time::LAST_CLOCK;
use value_form::{ActSpec, Items};

const LAST_RUN: u32 = 4_294_967_295;

// The act with its clock above this one.
fn raise(act: &mut ActSpec, clock: u64)
    requires { clock < 2 ^ 40 - 1 }
    ensures { act.new ≡ raised_act clock act.old }
{
    act.clock = act.clock.max(clock + 1);
}

// The acts with their clocks above this one.
fn raised_acts(acts: Vec<ActSpec>, clock: u64) -> Vec<ActSpec>
    requires { clock < 2 ^ 40 - 1 }
    ensures { result.items ≡ map (raised_act clock) acts.items }
{
    let mut acts = acts;
    for place in 0..acts.len() {
        raise(&mut acts[place], clock);
    }
    acts
}

/// Whether a run and a clock are left above these.
pub fn has_room(heights: Heights) -> bool
    ensures { IsTrue result ↔ HasRoom heights }
{
    heights.run < LAST_RUN && heights.clock < LAST_CLOCK
}

/// The plan, its run and the clocks of its acts above these.
pub fn raised(plan: Plan, heights: Heights) -> Plan
    requires plan { CanRun plan }
    requires room { HasRoom heights }
    ensures plan { result ≡ spec.raised heights plan }
    ensures runs { CanRun result }
{
    let Plan {
        run: _,
        repositories,
        brokers,
        acts,
    } = plan;
    Plan {
        run: heights.run + 1,
        repositories,
        brokers,
        acts: Items::of(raised_acts(acts.into_vec(), heights.clock)),
    }
}
