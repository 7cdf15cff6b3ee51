//! The laws.
ghost use Rattle.std.specs.Prelude.{ℕ, List, Option, IsTrue, reverse};
ghost use Rattle.std.specs.List.{AllZip};
ghost use Rattle.pseudo_time.specs.TimeParts.{TimeParts};
ghost use Rattle.pseudo_time.specs.Lists.{Every};
ghost use Rattle.effect_form.specs.declared.effects.Effect.{Effect};
ghost use Rattle.object_retirement.specs.Forward.{MayRetire, forward};
ghost use Rattle.plan_volumes.specs.Opening.{Opening};
ghost use Rattle.plan_form.specs.declared.plans.Plan.{Plan};
ghost use Rattle.plan_volumes.specs.Openings.{HasOpened, log_in};
ghost use Rattle.world_core.specs.declared.traces.Trace.{Trace};
ghost use Rattle.run_rounds.specs.Media.{RestoresLogs};
ghost use Rattle.complete_law.specs.Serials.{AreLate};
ghost use Rattle.session_form.specs.declared.heights.Heights.{Heights};
ghost use Rattle.session_form.specs.Heights.{Covers, raised};
ghost use Rattle.session_command.specs.Above.{reached};
ghost use Rattle.session_command.specs.Laws.{CoversOpened, LiesAbove};

use medium_port::Medium;

/// No log of these openings goes further than their heights.
pub fn law_of_reached_logs<M: Medium>()
    ensures { (openings : List (Opening M M.Medium)) →
        Every (λ o. Covers (reached openings) (log_in o)) openings }
{}

/// A log that was retired goes no further than what a retirement carried forward of it. So the heights of a
/// repository's current volume are those of all its volumes.
pub fn law_of_retired_logs()
    ensures { (log : List Effect) (at : TimeParts) (h : Heights) → MayRetire (reverse log) at →
        Covers h (forward log at) → Covers h log }
{}

/// Of media that tell what they hold: a run opened each node with a log that the heights of its openings
/// cover, if the node's volume could be opened.
pub fn law_of_opened_logs<M: Medium>()
    ensures { (plan : Plan) (media left : List (Option M)) (openings : List (Opening M M.Medium)) (t : Trace) →
        IsTrue M.Medium.tells → AllZip (HasOpened M.Medium) media openings →
        RestoresLogs M.Medium media left plan t → CoversOpened plan openings t }
{}

/// Each attempt of a batch lies above all that the logs of its nodes had when it began.
pub fn law_of_late_batches()
    ensures { (h : Heights) (plan : Plan) (t : Trace) → AreLate (raised h plan) t → LiesAbove h (raised h plan) t }
{}
