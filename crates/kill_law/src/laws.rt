//! Each place of a run is a past that a later run may follow.
ghost use Rattle.std.specs.Prelude.{◌≡◌, ◌++◌, ℕ, true, List};
ghost use Rattle.pseudo_time.specs.declared.nodes.NodeId.{NodeId};
ghost use Rattle.effect_form.specs.declared.effects.Effect.{Effect};
ghost use Rattle.stream_port.specs.declared.fates.Asked.{Asked};
ghost use Rattle.serial_model.specs.Questions.{Tree};
ghost use Rattle.plan_form.specs.declared.plans.Plan.{Plan};
ghost use Rattle.plan_form.specs.PlanTexts.{CanRun};
ghost use Rattle.world_core.specs.declared.entries.Entry.{Entry};
ghost use Rattle.world_core.specs.declared.traces.Trace.{Trace};
ghost use Rattle.world_core.specs.Legal.{Legal, in_plan};
ghost use Rattle.world_core.specs.Pasts.{OpenedWith, alike};
ghost use Rattle.world_core.specs.Readings.{IsLegal};
ghost use Rattle.world_facts.specs.Earlier.{ComeFrom};
ghost use Rattle.kill_law.specs.Places.{LeftAt, LeftBy, PlacesHavePasts, life_there};

/// At whatever place of a legal run over logs that earlier runs left, and retirements, where each node
/// has its durable log of that place with a prefix of its open effects, and other nodes have what they
/// had, the logs are again such as runs and retirements left. Each has all that its node had made durable
/// there.
pub fn place_has_past()
    ensures past { (plan : Plan) (asked : List Asked) (t : Trace) → CanRun plan → IsLegal plan asked t →
        PlacesHavePasts plan t }
    ensures script { (script : List ℕ → Tree) (plan : Plan) (asked : List Asked) (t : Trace) (front rest : List Entry)
        (logs after : NodeId → List Effect) → ComeFrom (alike script) logs → OpenedWith t.opened logs →
        Legal script plan asked t →
        t.entries ≡ front ++ rest → LeftBy script plan t front logs after → ComeFrom (alike script) after }
    ensures keeps { (plan : Plan) (t : Trace) (front : List Entry) (logs after : NodeId → List Effect) (n : NodeId) →
        LeftAt plan t front logs after → in_plan plan n ≡ true → (late : List Effect) ×
        (after n ≡ (life_there plan t front n).gated ++ late) }
{}
