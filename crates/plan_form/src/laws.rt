//! Bytes are one plan at most, and what a seed makes is a plan.
ghost use Rattle.std.specs.Prelude.{◌≡◌, ◌≤◌, ℕ, List, length};
ghost use Rattle.plan_form.specs.declared.plans.Plan.{Plan};
ghost use Rattle.plan_form.specs.declared.plan_faults.PlanKind.{PlanKind};
ghost use Rattle.plan_form.specs.Making.{made_plan};
ghost use Rattle.plan_form.specs.PlanFaults.{IsPlanFault};
ghost use Rattle.plan_form.specs.PlanTexts.{plan_text, IsOfLanguage};
ghost use Rattle.plan_form.specs.Plans.{IsPlan};

/// Bytes are one plan at most, and bytes with a fault are none. The text of a plan of the language is
/// that plan. So `parse` answers Ok exactly where there is a plan, and for what `print` gives of it
/// just that plan, so long as it isn't too long.
pub fn law_of_plans()
    ensures one { (bytes : List ℕ) (a b : Plan) → IsPlan bytes a → IsPlan bytes b → a ≡ b }
    ensures none { (bytes : List ℕ) (line : ℕ) (what : PlanKind) (plan : Plan) → IsPlanFault bytes line what →
        IsPlan bytes plan → ⊥ }
    ensures printed { (plan : Plan) → IsOfLanguage plan → length (plan_text plan) ≤ 4194304 →
        IsPlan (plan_text plan) plan }
    ensures read { (bytes : List ℕ) (plan : Plan) → IsPlan bytes plan → IsOfLanguage plan }
{}

/// What a seed makes is a plan of the language, whose text isn't too long.
pub fn law_of_made_plans()
    ensures { (seed count : ℕ) → count ≤ 9999 → IsPlan (plan_text (made_plan seed count)) (made_plan seed count) }
{}
