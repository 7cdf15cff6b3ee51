//! What the entries of a trace alone decide.
// What entries alone decide, and how a walk goes on, whatever the plan.
ghost use Rattle.std.specs.Prelude.{◌≡◌, ℕ, ◌+◌, true, false, List, [], ◌∷◌, ◌++◌, length};
ghost use Rattle.pseudo_time.specs.declared.nodes.NodeId.{NodeId};
ghost use Rattle.stream_port.specs.declared.fates.Asked.{Asked};
ghost use Rattle.stream_port.specs.declared.fates.Fate.{Fate};
ghost use Rattle.serial_model.specs.Questions.{Tree};
ghost use Rattle.plan_form.specs.declared.plans.Plan.{Plan};
ghost use Rattle.broker_core.specs.Tasks.{Scripted};
ghost use Rattle.world_core.specs.declared.entries.Entry.{Entry};
ghost use Rattle.world_core.specs.declared.traces.Sent.{Sent};
ghost use Rattle.world_core.specs.declared.traces.Trace.{Trace};
ghost use Rattle.world_core.specs.Walks.{Base, own, start_world, step, walk};
ghost use Rattle.world_core.specs.Legal.{AllReady, JustNodes, Legal, Meets, Numbered, Rule, base_of, is_behind};
ghost use Rattle.world_core.specs.Alike.{Alike, HaveSameNodes};

/// The flags of a node rest on its own entries, and a node that is behind stays so until one of them.
pub fn law_of_flags()
    ensures flags { (b : Base) (es more : List Entry) (n : NodeId) → own n (es ++ more) ≡ own n es →
        (walk b (es ++ more)).flags n ≡ (walk b es).flags n }
    ensures behind { (b : Base) (es more : List Entry) (n : NodeId) → own n (es ++ more) ≡ own n es →
        is_behind (walk b es) n ≡ true →
        is_behind (walk b (es ++ more)) n ≡ true }
{}

/// What entries alone decide rests on no script, no act and no log: flags, hearing, takings, Ticks.
pub fn flags_are_the_entries()
    ensures { (b c : Base) (es : List Entry) → HaveSameNodes b c → Alike (walk b es) (walk c es) }
{}

/// One entry more is one step more of the walk and of its rules, and numbers go on behind numbers.
pub fn walks_go_on()
    ensures step { (b : Base) (es : List Entry) (e : Entry) → walk b (es ++ e ∷ []) ≡ step b (walk b es) e }
    ensures rules { (b : Base) (fates : List Fate) (es : List Entry) (e : Entry) → Meets b fates (start_world b) es →
        Rule b fates (walk b es) e →
        Meets b fates (start_world b) (es ++ e ∷ []) }
    ensures numbers { (k : ℕ) (xs ys : List Sent) → Numbered k xs → Numbered (length xs + k) ys →
        Numbered k (xs ++ ys) }
{}

/// Where nothing is due at a node, no effect and no message of it waits for a gate.
pub fn closed_where_nothing_is_due()
    ensures { (b : Base) (es : List Entry) (n : NodeId) → ((walk b es).flags n).due ≡ false →
        (((walk b es).life n).fresh ≡ []) ×
        (((walk b es).life n).outs ≡ []) }
{}

/// A trace without entries is legal for each plan whose nodes were opened with logs that show no fault,
/// whatever fates were asked for before.
pub fn legal_begins()
    ensures { (script : List ℕ → Tree) (plan : Plan) (asked : List Asked) (t : Trace) → Scripted script plan.acts →
        JustNodes plan t.opened →
        AllReady (base_of script plan t)
        → t.sent ≡ [] → t.entries ≡ [] → Legal script plan asked t }
{}
