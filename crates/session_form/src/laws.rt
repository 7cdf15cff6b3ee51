//! The laws.
ghost use Rattle.std.specs.Prelude.{◌≡◌, ◌≤◌, ◌+◌, ℕ, List};
ghost use Rattle.pseudo_time.specs.Lists.{Every};
ghost use Rattle.value_form.specs.declared.acts.ActSpec.{ActSpec};
ghost use Rattle.effect_form.specs.declared.effects.Effect.{Effect};
ghost use Rattle.plan_form.specs.declared.plans.Plan.{Plan};
ghost use Rattle.session_form.specs.declared.heights.Heights.{Heights};
ghost use Rattle.session_form.specs.Heights.{Covers, IsNoLower, raised, with_log};

/// Heights with a log cover all effects of the log, are no lower than the heights before, and no higher than
/// any that cover the log and are no lower than those.
pub fn law_of_heights()
    ensures covers { (h : Heights) (log : List Effect) → Covers (with_log h log) log }
    ensures rises { (h : Heights) (log : List Effect) → IsNoLower h (with_log h log) }
    ensures least { (h g : Heights) (log : List Effect) → IsNoLower h g → Covers g log →
        IsNoLower (with_log h log) g }
{}

/// The clocks of a raised plan's acts are all above.
pub fn law_of_raised_plans()
    ensures { (h : Heights) (plan : Plan) → Every (λ (a : ActSpec). h.clock + 1 ≤ a.clock) (raised h plan).acts }
{}
