//! What is known at each place of a legal trace.
ghost use Rattle.std.specs.Prelude.{◌≡◌, ℕ, List, [], ◌++◌, map, reverse};
ghost use Rattle.pseudo_time.specs.Lists.{Has};
ghost use Rattle.pseudo_time.specs.declared.nodes.NodeId.{NodeId};
ghost use Rattle.effect_form.specs.declared.effects.Effect.{Effect};
ghost use Rattle.stream_port.specs.declared.fates.Asked.{Asked};
ghost use Rattle.serial_model.specs.Questions.{Tree};
ghost use Rattle.plan_form.specs.declared.plans.Plan.{Plan};
ghost use Rattle.world_core.specs.declared.entries.Entry.{Entry};
ghost use Rattle.world_core.specs.declared.entries.Entry.TheVariants.{Tick};
ghost use Rattle.world_core.specs.declared.traces.Trace.{Trace};
ghost use Rattle.world_core.specs.Walks.{walk, sent_by};
ghost use Rattle.world_core.specs.Legal.{Legal, base_of};
ghost use Rattle.world_core.specs.Pasts.{AreCalls, Call, HasPast, OpenedWith, alike, logs_after};
ghost use Rattle.message_form.specs.Posts.{Post, WasSent};
ghost use Rattle.value_form.specs.declared.objects.ObjectId.{ObjectId};
ghost use Rattle.message_form.specs.declared.messages.Message.TheVariants as message;
ghost use Rattle.pseudo_time.specs.Nodes.{broker, repository};
ghost use Rattle.object_retirement.specs.Chains.{AllOf, Chain};
ghost use Rattle.repository_log.specs.Logs.{marks};
ghost use Rattle.world_facts.specs.Soft.{Lineage};
ghost use Rattle.pseudo_time.specs.TimeParts.{TimeParts};
ghost use Rattle.value_form.specs.declared.values.Value.{Value};
ghost use Rattle.world_facts.specs.Acknowledged.{Keeps, SeesAbove, SeesOverAll};
ghost use Rattle.object_retirement.specs.Stood.{all_stood};
ghost use Rattle.world_facts.specs.Earlier.{AreEarlier, AreRuns, ComeFrom, Earlier, TickedBy, logs_left, older, replaced, sent_earlier};
ghost use Rattle.world_facts.specs.Earlier.Earlier.{Running};
ghost use Rattle.world_facts.specs.Refines.{LogFacts, LivesOk, OlderFacts, logs_at, past_sent, Ticked};
ghost use Rattle.world_facts.specs.NodeRules.{node_facts};
ghost use Rattle.world_facts.specs.AnyRules.{any_facts, log_opened, log_before};

/// At each place of a legal trace over logs with a past of runs alone: every durable log is one that its node's rules
/// could make, each of its effects has what must have come before it, what each message ever sent says
/// of its sender's durable log is true, and no log shows a later run or another plan.
pub fn facts_of_legal_traces()
    ensures { (script : List ℕ → Tree) (plan : Plan) (asked : List Asked) (t : Trace) (logs : NodeId →
        List Effect) (front rest : List Entry) →
        (past : HasPast (alike script) logs) → OpenedWith t.opened logs → Legal script plan asked t →
        t.entries ≡ front ++ rest →
        LogFacts (node_facts script) (base_of script plan t) (logs_at logs (walk (base_of script plan t) front))
        (past_sent (alike script) past.0)
        (sent_by (walk (base_of script plan t) front)) (Ticked past.0 front) }
{}

/// The same of the whole lives of the nodes there, with the effects, messages and minds that no gate has
/// closed yet.
pub fn facts_of_whole_lives()
    ensures { (script : List ℕ → Tree) (plan : Plan) (asked : List Asked) (t : Trace) (logs : NodeId →
        List Effect) (front rest : List Entry) →
        (past : HasPast (alike script) logs) → OpenedWith t.opened logs → Legal script plan asked t →
        t.entries ≡ front ++ rest →
        LivesOk (node_facts script) (base_of script plan t) (logs_at logs (walk (base_of script plan t) front))
        (past_sent (alike script) past.0)
        (Ticked past.0 front) (walk (base_of script plan t) front) }
{}

/// At each place of a legal trace over any logs, also over logs that no calls could have left: what each
/// broker added counts and has its cause, a repository refused writes as its log says, and what a broker
/// sent is what its attempts of this run ask for.
pub fn facts_of_any_trace()
    ensures { (script : List ℕ → Tree) (plan : Plan) (asked : List Asked) (t : Trace) (front rest : List Entry) →
        Legal script plan asked t →
        t.entries ≡ front ++ rest →
        LogFacts (any_facts script (base_of script plan t).run (base_of script plan t).acts (log_before t))
        (base_of script plan t)
        (logs_at (log_opened t) (walk (base_of script plan t) front)) [] (sent_by (walk (base_of script plan t) front))
        (λ moment. Has (Tick moment) front) }
{}

/// At each place of a legal trace over logs that runs and retirements left: every durable log, and every
/// older one that a retirement replaced, is one that its node's rules could make, and each of its effects
/// has what must have come before it. A node's logs are a chain of growths and retirements. What each
/// message ever sent says is true of its sender's durable log, or of one of those older ones.
pub fn facts_over_older_logs()
    ensures { (script : List ℕ → Tree) (plan : Plan) (asked : List Asked) (t : Trace) (logs : NodeId →
        List Effect) (front rest : List Entry) →
        (past : ComeFrom (alike script) logs) → OpenedWith t.opened logs → Legal script plan asked t →
        t.entries ≡ front ++ rest →
        OlderFacts (node_facts script) (base_of script plan t) (logs_at logs (walk (base_of script plan t) front))
        (replaced (alike script) past.0)
        (sent_earlier (alike script) past.0) (sent_by (walk (base_of script plan t) front)) (TickedBy past.0 front) }
{}

/// The histories of a repository's logs are a chain: each grew, by marks that fit, from what a retirement
/// left of the one before. A broker's log is never retired.
pub fn histories_are_a_chain()
    ensures repositories { (script : List ℕ → Tree) (r : ℕ) (olds : List (List Effect)) (log : List Effect) →
        Lineage (node_facts script) (repository r) olds log →
        Chain (map marks olds) (marks log) }
    ensures brokers { (script : List ℕ → Tree) (b : ℕ) (olds : List (List Effect)) (log : List Effect) →
        Lineage (node_facts script) (broker b) olds log → olds ≡ [] }
{}

/// So whatever was sent before, in an earlier call or in the trace, its sender's log keeps, or has given
/// up as a retirement may: what was stored, what a read was answered, and what was decided. What a read
/// that isn't below the floor was answered, a read at that time would see there still, unless its attempt
/// was aborted.
pub fn answers_are_kept()
    ensures logs { (script : List ℕ → Tree) (plan : Plan) (asked : List Asked) (t : Trace) (logs : NodeId →
        List Effect) (front rest : List Entry) →
        (past : ComeFrom (alike script) logs) → OpenedWith t.opened logs → Legal script plan asked t →
        t.entries ≡ front ++ rest → (q : Post) →
        Has q (sent_earlier (alike script) past.0 ++ sent_by (walk (base_of script plan t) front)) →
        Keeps (sent_earlier (alike script) past.0 ++ sent_by (walk (base_of script plan t) front)) q.from
        (reverse (logs_at logs (walk (base_of script plan t) front) q.from))
        (map reverse (replaced (alike script) past.0 q.from)) q.message }
    ensures sight { (script : List ℕ → Tree) (plan : Plan) (asked : List Asked) (t : Trace) (logs : NodeId →
        List Effect) (front rest : List Entry) →
        (past : ComeFrom (alike script) logs) → OpenedWith t.opened logs → Legal script plan asked t →
        t.entries ≡ front ++ rest →
        (r : ℕ) (to : NodeId) (x : TimeParts) (v : Value) →
        Has (record { from = repository r; to = to; message = message.Value x v })
        (sent_earlier (alike script) past.0 ++ sent_by (walk (base_of script plan t) front)) →
        SeesAbove (sent_earlier (alike script) past.0 ++ sent_by (walk (base_of script plan t) front)) (repository r)
        (reverse (logs_at logs (walk (base_of script plan t) front) (repository r))) x v }
{}

/// The versions of a repository's logs, older and last, each object and start once, are all that ever
/// stood; and what a read was answered, in whatever log, is what it sees over all of these.
pub fn reads_see_all_that_stood()
    ensures versions { (script : List ℕ → Tree) (plan : Plan) (asked : List Asked) (t : Trace) (logs : NodeId →
        List Effect) (front rest : List Entry) →
        (past : ComeFrom (alike script) logs) → OpenedWith t.opened logs → Legal script plan asked t →
        t.entries ≡ front ++ rest → (r : ℕ) (o : ObjectId) →
        AllOf (map marks (map reverse (replaced (alike script) past.0 (repository r))))
        (marks (reverse (logs_at logs (walk (base_of script plan t) front) (repository r))))
        (all_stood (map marks (map reverse (replaced (alike script) past.0 (repository r))))
        (marks (reverse (logs_at logs (walk (base_of script plan t) front) (repository r))))) o }
    ensures reads { (script : List ℕ → Tree) (plan : Plan) (asked : List Asked) (t : Trace) (logs : NodeId →
        List Effect) (front rest : List Entry) →
        (past : ComeFrom (alike script) logs) → OpenedWith t.opened logs → Legal script plan asked t →
        t.entries ≡ front ++ rest →
        (r : ℕ) (to : NodeId) (x : TimeParts) (v : Value) →
        Has (record { from = repository r; to = to; message = message.Value x v })
        (sent_earlier (alike script) past.0 ++ sent_by (walk (base_of script plan t) front)) →
        (o : ObjectId) × WasSent (sent_earlier (alike script) past.0 ++ sent_by (walk (base_of script plan t) front))
        (broker x.stamp.broker) (repository r) (message.Read x o) ×
        SeesOverAll (map marks (map reverse (replaced (alike script) past.0 (repository r))))
        (marks (reverse (logs_at logs (walk (base_of script plan t) front) (repository r)))) o x v }
{}

/// A log that a retirement replaced is an older log of its node, and runs alone replace none. Runs over
/// what runs left are such calls: they leave and send what they did.
pub fn runs_replace_nothing()
    ensures older { (read : Plan → List ℕ → Tree) (cs : List Earlier) (n : NodeId) (log : List Effect) →
        Has log (replaced read cs n) → Has log (older read cs n) }
    ensures replace { (read : Plan → List ℕ → Tree) (cs : List Earlier) → AreRuns cs → (n : NodeId) →
        replaced read cs n ≡ [] }
    ensures alone { (cs : List Call) → AreRuns (map Running cs) }
    ensures are { (read : Plan → List ℕ → Tree) (cs : List Call) → AreCalls read cs → AreEarlier read (map Running cs) }
    ensures leave { (read : Plan → List ℕ → Tree) (cs : List Call) →
        logs_left read (map Running cs) ≡ logs_after read cs }
    ensures sent { (read : Plan → List ℕ → Tree) (cs : List Call) →
        sent_earlier read (map Running cs) ≡ past_sent read cs }
{}
