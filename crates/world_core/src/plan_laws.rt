//! One reading of scripts serves all plans of a past.
// Each law holds for every plan that can run.
ghost use Rattle.std.specs.Prelude.{◌≡◌, ℕ, List};
ghost use Rattle.pseudo_time.specs.Lists.{Every};
ghost use Rattle.pseudo_time.specs.StampParts.{IsInRange};
ghost use Rattle.pseudo_time.specs.declared.nodes.NodeId.{NodeId};
ghost use Rattle.value_form.specs.Mirror.{block};
ghost use Rattle.effect_form.specs.declared.effects.Effect.{Effect};
ghost use Rattle.stream_port.specs.declared.fates.Asked.{Asked};
ghost use Rattle.plan_form.specs.declared.plans.Plan.{Plan};
ghost use Rattle.plan_form.specs.PlanTexts.{CanRun};
ghost use Rattle.serial_model.specs.Questions.{Tree};
ghost use Rattle.serial_model.specs.Ranges.{BlockInRange};
ghost use Rattle.broker_core.specs.Ledgers.{AreBrokerActs};
ghost use Rattle.broker_core.specs.Readings.{reading};
ghost use Rattle.broker_core.specs.Tasks.{Scripted};
ghost use Rattle.world_core.specs.declared.entries.Entry.{Entry};
ghost use Rattle.world_core.specs.declared.traces.Trace.{Trace};
ghost use Rattle.world_core.specs.Legal.{Legal, base_of};
ghost use Rattle.world_core.specs.Nodes.{acts_of};
ghost use Rattle.world_core.specs.Pasts.{HasPast, alike};
ghost use Rattle.world_core.specs.Readings.{IsLegal, WereLeft};
ghost use Rattle.world_core.specs.Walks.{walk};

/// The acts of a plan, all of them and those of one broker, are such as a broker can have: what their
/// scripts ask for is in range, and the broker and home of each are those of a stamp. So each script
/// of a plan has a reading, that of the plan's acts.
pub fn law_of_plans_in_range()
    ensures acts { (plan : Plan) → CanRun plan → AreBrokerActs plan.acts }
    ensures own { (plan : Plan) (b : ℕ) → CanRun plan → AreBrokerActs (acts_of b plan.acts) }
    ensures names { (plan : Plan) → CanRun plan → Every (λ act. IsInRange 1 act.broker act.home) plan.acts }
    ensures scripts { (plan : Plan) → CanRun plan →
        Every (λ act. BlockInRange (block act.script.lines)) plan.acts }
    ensures read { (plan : Plan) → CanRun plan → Scripted (reading plan.acts) plan.acts }
{}

/// Two readings that both read a plan's scripts give the same walk of its traces, and the same traces
/// are legal by them.
pub fn readings_walk_alike()
    ensures walks { (s s' : List ℕ → Tree) (plan : Plan) (t : Trace) (es : List Entry) → Scripted s plan.acts →
        Scripted s' plan.acts →
        walk (base_of s plan t) es ≡ walk (base_of s' plan t) es }
    ensures legal { (s s' : List ℕ → Tree) (plan : Plan) (asked : List Asked) (t : Trace) → Scripted s plan.acts →
        Scripted s' plan.acts →
        Legal s plan asked t → Legal s' plan asked t }
{}

/// Where earlier runs left these logs, each legal by its own plan, there is one reading of scripts by
/// which the logs have a past and a trace that is legal by its plan is legal.
pub fn one_reading_for_all()
    ensures { (plan : Plan) (asked : List Asked) (t : Trace) (logs : NodeId → List Effect) → CanRun plan →
        IsLegal plan asked t → WereLeft logs
        → (script : List ℕ → Tree) × HasPast (alike script) logs × Legal script plan asked t }
{}
