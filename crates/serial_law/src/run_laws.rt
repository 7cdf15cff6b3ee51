//! The laws.
ghost use Rattle.std.specs.Prelude.{List};
ghost use Rattle.stream_port.specs.declared.fates.Asked.{Asked};
ghost use Rattle.plan_form.specs.declared.plans.Plan.{Plan};
ghost use Rattle.plan_form.specs.PlanTexts.{CanRun};
ghost use Rattle.world_core.specs.declared.traces.Trace.{Trace};
ghost use Rattle.world_core.specs.Readings.{IsLegal};
ghost use Rattle.serial_law.specs.Serials.{AreLate, HoldsFinals, IsSerialOver};
ghost use Rattle.serial_law.specs.Reasons.{AddedHaveReasons, HaveReasons};
ghost use Rattle.serial_law.specs.Acknowledged.{KeepsAnswers, SpendsRightly};

use crate::{law_causes, law_clocks, law_facts, law_finals, law_serial};

/// Every attempt of a run reads, writes and ends as its script does alone, after the committed deeds before
/// its stamp (Bernstein et al. 1987, chapter 5): of each legal trace of a plan that can run, whatever
/// other plans the earlier runs had that left its logs, and whatever was retired between them. Of a
/// committed attempt the puts stand, but for what a retirement gave up.
pub fn law_of_serial_runs()
    ensures { (plan : Plan) (asked : List Asked) (t : Trace) → CanRun plan → IsLegal plan asked t →
        IsSerialOver plan t }
{
    law_serial();
}

/// What the objects hold by the logs at the end, as a report shows it, is what all committed deeds leave,
/// also where retirements gave up older versions: so the finals of a report are the committed ones.
pub fn law_of_finals()
    ensures { (plan : Plan) (asked : List Asked) (t : Trace) → CanRun plan →
        IsLegal plan asked t → HoldsFinals plan t }
{
    law_finals();
}

/// Each End of an attempt of the run has its cause: a decision at its home, the end that its script came
/// to, a read, a mark or a version above the write that was refused, or a mark above the read that was,
/// which its repository answered so, in this run or in an earlier one.
pub fn law_of_reasons()
    ensures { (plan : Plan) (asked : List Asked) (t : Trace) → CanRun plan → IsLegal plan asked t →
        HaveReasons plan t }
{
    law_facts();
    law_causes();
}

/// No read ever saw a version of an aborted attempt, and nothing that was acknowledged is taken back: the
/// logs at the end of a run agree with whatever was sent in it, or in an earlier run. A version that was
/// stored stands there, and so does a decision; what a read was answered a read at its time would see
/// there still, of an attempt that was committed or of its own, unless the reader itself was aborted. Of
/// what a retirement gave up the retired volume has it.
pub fn law_of_answers()
    ensures { (plan : Plan) (asked : List Asked) (t : Trace) → CanRun plan → IsLegal plan asked t →
        KeepsAnswers plan t }
{}

/// An act is spent only where a new attempt of it might begin, and no clock is left above those of the log
/// and the one that its refusals showed.
pub fn law_of_spent_acts()
    ensures { (plan : Plan) (asked : List Asked) (t : Trace) → CanRun plan → IsLegal plan asked t →
        SpendsRightly plan t }
{
    law_causes();
}

/// No attempt of a run has a clock below that which all acts of its plan have. So a plan whose clocks are
/// above all that stand in the logs reads what finished runs committed.
pub fn law_of_late_attempts()
    ensures { (plan : Plan) (asked : List Asked) (t : Trace) → CanRun plan → IsLegal plan asked t → AreLate plan t }
{
    law_clocks();
}

/// Over whatever logs, also over those that no run left, each End that the run added has its cause.
pub fn law_of_added_reasons()
    ensures { (plan : Plan) (asked : List Asked) (t : Trace) → AddedHaveReasons plan asked t }
{
    law_causes();
}
