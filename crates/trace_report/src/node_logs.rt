//! The log of a node among those of a run.
ghost use Rattle.std.specs.Prelude.{◌≡◌};
ghost use Rattle.trace_report.specs.Reports.{logs_by};

use effect_form::Effect;
use pseudo_time::NodeId;
use world_core::Opened;

/// The log of a node in a list of nodes. Empty where it isn't there.
pub fn log_of(logs: &[Opened], node: NodeId) -> &[Effect]
    ensures { result.now ≡ logs_by logs.now node }
{
    for one in logs {
        if one.node == node {
            return one.effects.as_slice();
        }
    }
    &[]
}
