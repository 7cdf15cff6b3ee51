//! The laws.
ghost use Rattle.std.specs.Prelude.{ℕ, List, reverse};
ghost use Rattle.pseudo_time.specs.Lists.{Every};
ghost use Rattle.pseudo_time.specs.Nodes.{broker};
ghost use Rattle.pseudo_time.specs.declared.nodes.NodeId.{NodeId};
ghost use Rattle.stream_port.specs.declared.fates.Asked.{Asked};
ghost use Rattle.effect_form.specs.declared.effects.Effect.{Effect};
ghost use Rattle.plan_form.specs.declared.plans.Plan.{Plan};
ghost use Rattle.plan_form.specs.Plans.{InRange};
ghost use Rattle.plan_form.specs.PlanTexts.{CanRun};
ghost use Rattle.world_core.specs.Readings.{IsLegal};
ghost use Rattle.world_core.specs.declared.traces.Trace.{Trace};
ghost use Rattle.run_rounds.specs.Acts.{acts_shown, counted_by};
ghost use Rattle.complete_law.specs.Calm.{HasOutcome};
ghost use Rattle.run_command.specs.Contract.{HoldsOfRuns};
ghost use Rattle.run_command.specs.Finished.{AllBegun};
ghost use Rattle.run_command.specs.Sights.{SeeFinishedRuns};
ghost use Rattle.run_command.specs.Smooth.{IsFinished};

use complete_law::{
    law_of_added_reasons, law_of_answers, law_of_finals, law_of_late_attempts, law_of_reasons,
    law_of_serial_runs, law_of_spent_acts,
};
use run_rounds::place_has_past;
use serial_law::law_before;

/// Where the durable log of each broker has begun all acts of the broker, and each of these has its
/// outcome, each act of the plan is shown with an outcome.
pub fn law_done_is_finished()
    ensures { (plan : Plan) (logs : NodeId → List Effect) → CanRun plan →
        ((b : ℕ) → InRange plan.brokers b →
        AllBegun plan b (counted_by plan b (logs (broker b))) ×
        Every HasOutcome (counted_by plan b (logs (broker b))).acts) →
        Every IsFinished (acts_shown plan logs) }
{}

/// An attempt sees what finished runs committed with smaller stamps: the last such put of each object is
/// what the object holds for it, unless an attempt of its own run lies between. So if the clocks of a plan
/// are above all that were committed, its attempts see all of it.
pub fn law_of_finished_runs()
    ensures { (plan : Plan) (asked : List Asked) (t : Trace) → CanRun plan → IsLegal plan asked t →
        SeeFinishedRuns plan t }
{
    law_before();
    law_of_late_attempts();
}

/// What holds of each legal run of a plan.
pub fn laws_of_runs()
    ensures { HoldsOfRuns }
{
    law_of_serial_runs();
    law_of_late_attempts();
    law_of_finished_runs();
    law_of_finals();
    law_of_answers();
    law_of_reasons();
    law_of_spent_acts();
    law_of_added_reasons();
    place_has_past();
}
