//! Laws of traces and of what is legal.
// Each law holds for every trace.
ghost use Rattle.std.specs.Prelude.{◌≡◌, ℕ, ◌+◌, Bool, true, false, List, [], ◌∷◌, ◌++◌, length, map};
ghost use Rattle.pseudo_time.specs.declared.nodes.NodeId.{NodeId};
ghost use Rattle.effect_form.specs.declared.effects.Effect.{Effect};
ghost use Rattle.message_form.specs.Posts.{Post};
ghost use Rattle.stream_port.specs.declared.fates.Asked.{Asked};
ghost use Rattle.stream_port.specs.declared.fates.Fate.{Fate};
ghost use Rattle.serial_model.specs.Questions.{Tree};
ghost use Rattle.plan_form.specs.declared.plans.Plan.{Plan};
ghost use Rattle.world_core.specs.declared.entries.Entry.{Entry};
ghost use Rattle.world_core.specs.declared.traces.Sent.{Sent};
ghost use Rattle.world_core.specs.declared.traces.Trace.{Trace};
ghost use Rattle.world_core.specs.Walks.{Base, World, own, step, walk, sent_by};
ghost use Rattle.world_core.specs.Legal.{Rule, Meets, Legal, Numbered, base_of, post_of, fates_of, asked_of, in_plan};
ghost use Rattle.world_core.specs.Pasts.{Call, IsCall, HasPast, log_left};

/// Of two lists of entries, one a prefix of the other, with the same own entries of a node, both
/// give the same life of that node.
pub fn law_of_lives()
    ensures { (b : Base) (es more : List Entry) (n : NodeId) → own n (es ++ more) ≡ own n es →
        (walk b (es ++ more)).life n ≡ (walk b es).life n }
{}

/// A durable log only grows.
pub fn gated_logs_grow()
    ensures { (b : Base) (es more : List Entry) (n : NodeId) → (late : List Effect) ×
        (((walk b (es ++ more)).life n).gated ≡ ((walk b es).life n).gated ++ late) }
{}

/// What was sent stays sent, with its number.
pub fn sent_messages_grow()
    ensures { (b : Base) (es more : List Entry) → (late : List Post) ×
        (sent_by (walk b (es ++ more)) ≡ sent_by (walk b es) ++ late) }
{}

/// More answers of the fates change nothing: entries that meet their rules still do.
pub fn more_fates_change_nothing()
    ensures { (b : Base) (fates more : List Fate) (w : World) (es : List Entry) → Meets b fates w es →
        Meets b (fates ++ more) w es }
{}

/// What stands before a place of a legal trace is legal, with the messages that were sent and the
/// fates that were asked for before it.
pub fn legal_before()
    ensures { (script : List ℕ → Tree) (plan : Plan) (asked : List Asked) (t : Trace) (front rest : List Entry) →
        Legal script plan asked t →
        t.entries ≡ front ++ rest
        → (sent later : List Sent) × (older : List Asked) × (t.sent ≡ sent ++ later) ×
        (asked ≡ older ++ map asked_of later)
        × Legal script plan older (record { start = t.start; opened = t.opened; sent = sent; entries = front }) }
{}

/// A legal trace stays legal with one more entry that meets its rule, with the messages that it
/// sends and their fates.
pub fn legal_goes_on()
    ensures { (script : List ℕ → Tree) (plan : Plan) (asked : List Asked) (t : Trace) (e : Entry) (new : List Sent) →
        Legal script plan asked t
        → Rule (base_of script plan t) (fates_of t.sent) (walk (base_of script plan t) t.entries) e
        → sent_by (step (base_of script plan t) (walk (base_of script plan t) t.entries) e) ≡
        sent_by (walk (base_of script plan t) t.entries) ++ map post_of new
        → Numbered (length t.sent + 1) new
        → Legal script plan (asked ++ map asked_of new) (record {
          start = t.start;
          opened = t.opened;
          sent = t.sent ++ new;
          entries = t.entries ++ e ∷ [];
        }) }
{}

/// Logs with a past have one after one more run over them.
pub fn past_goes_on()
    ensures none { (read : Plan → List ℕ → Tree) → HasPast read (λ n. []) }
    ensures more { (read : Plan → List ℕ → Tree) (logs after : NodeId → List Effect) (c : Call) → HasPast read logs →
        IsCall read logs c
        → ((n : NodeId) → in_plan c.plan n ≡ true → after n ≡ log_left read c n) →
        ((n : NodeId) → in_plan c.plan n ≡ false → after n ≡ logs n) →
        HasPast read after }
{}
