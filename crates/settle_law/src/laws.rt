//! The law.
ghost use Rattle.std.specs.Prelude.{◌≡◌, [], List};
ghost use Rattle.stream_port.specs.declared.fates.Asked.{Asked};
ghost use Rattle.plan_form.specs.declared.plans.Plan.{Plan};
ghost use Rattle.world_core.specs.Readings.{IsLegal};
ghost use Rattle.world_core.specs.declared.traces.Trace.{Trace};
ghost use Rattle.settle_law.specs.Settling.{AllExpired};

/// A legal run of a plan without brokers sends no message. If it is idle, no record of a repository that is
/// up is unknown at or after its deadline.
pub fn law_of_settling()
    ensures silent { (plan : Plan) (asked : List Asked) (t : Trace) → plan.brokers ≡ 0 → IsLegal plan asked t → t.sent ≡ [] }
    ensures expired { (plan : Plan) (asked : List Asked) (t : Trace) → plan.brokers ≡ 0 → IsLegal plan asked t →
        AllExpired plan t }
{}
