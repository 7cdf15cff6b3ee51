//! The plan of a settle.
ghost use Rattle.std.specs.Prelude.{◌≡◌};
ghost use Rattle.settle_command.specs.Plans as spec;

use plan_form::Plan;
use std::alloc::Global;
use value_form::Items;

/// The plan with these repositories, no broker and no act.
pub fn settle_plan(alloc: Global, repositories: u8) -> Plan
    ensures { result ≡ spec.settle_plan repositories }
{
    Plan {
        run: 1,
        repositories,
        brokers: 0,
        acts: Items::of(Vec::new(alloc)),
    }
}
