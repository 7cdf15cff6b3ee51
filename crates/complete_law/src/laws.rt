//! Laws of a run that loses nothing: it is never stuck, and what it costs is bounded.
// A place of a trace is the entries before it. No Tick, Crash or Down stands before a calm place.
ghost use Rattle.pseudo_time.specs.Lists.{Every};
ghost use Rattle.std.specs.Prelude.{◌≡◌, ◌*◌, ◌+◌, ◌≤◌, ℕ, List, ◌∷◌, length, true};
ghost use Rattle.pseudo_time.specs.declared.nodes.NodeId.{NodeId};
ghost use Rattle.value_form.specs.Mirror.{Block};
ghost use Rattle.serial_model.specs.Questions.{Tree, denote};
ghost use Rattle.broker_core.specs.Tasks.{Task};
ghost use Rattle.plan_form.specs.Plans.{InRange};
ghost use Rattle.message_form.specs.declared.messages.Message.{Message};
ghost use Rattle.message_form.specs.Posts.{WasSent};
ghost use Rattle.complete_law.specs.AtRest.{AtRest, is_done};
ghost use Rattle.broker_core.specs.Book.{Try, tries_of};
ghost use Rattle.world_core.specs.declared.entries.Entry.{Entry};
ghost use Rattle.world_core.specs.Walks.{sent_by};
ghost use Rattle.complete_law.specs.Calm.{CalmRun, CalmPlace, IsUnstopped, log_at, sent_at, book_at, IsIdleAt, AllDone, AsksAtMost, AskAtMost, most_messages, most_effects, most_pages, filled_by, HasOutcome, IsRefusal, WasRefused, MayStop};

/// Of nodes at rest, where nothing is open and no message is on its way, every broker is done.
pub fn law_at_rest()
    ensures { (script : List ℕ → Tree) (run : ℕ) (acts : ℕ → List Task) (most : ℕ) (k : AtRest script run acts most)
        (b : ℕ) → InRange most b →
        is_done script b run (acts b) (k.brokers b) (k.heard b) ≡ true }
{}

/// Where the place is idle, every broker is done.
pub fn law_never_stuck()
    ensures { (p : CalmPlace) → IsIdleAt p → AllDone p }
{}

/// Each attempt sends at most two messages to begin, four per request and two to end. A script has at
/// most 10,000 requests.
pub fn law_few_messages()
    ensures few { (p : CalmPlace) (most : ℕ) → AskAtMost p.run most → length (sent_at p) ≤ most_messages p.run most }
    ensures always { (script : Block) → AsksAtMost 10000 (denote script) }
{}

/// No node has more effects. Where none of them shares a page they fill no more pages than these, so each
/// finds room where a medium has as many.
pub fn law_few_effects()
    ensures effects { (p : CalmPlace) (most : ℕ) (n : NodeId) → AskAtMost p.run most →
        length (log_at p n) ≤ most_effects p.run most }
    ensures pages { (p : CalmPlace) (most : ℕ) (n : NodeId) → AskAtMost p.run most →
        filled_by (log_at p n) ≤ most_pages p.run most }
{}

/// Of a broker that is done each act was committed, withdrawn, failed or spent, or its last allowed
/// attempt was refused.
pub fn law_outcomes()
    ensures { (p : CalmPlace) → AllDone p → (b : ℕ) → Every HasOutcome (book_at p b).acts }
{}

/// A run in which a Tick stands only where some broker isn't done, and a node is down only where its
/// effects want more pages than a medium of that many has, has no Tick, Crash or Down at all.
pub fn law_nothing_stops()
    ensures { (r : CalmRun) (most : ℕ) → AskAtMost r most →
        ((p : CalmPlace) (e : Entry) (more : List Entry) → p.run ≡ r → p.rest ≡ e ∷ more →
        MayStop (most_pages r most) p e) → Every IsUnstopped r.trace.entries }
{}

/// With one broker no write is refused: no repository ever says so, and no attempt ended so.
pub fn law_one_broker()
    ensures said { (p : CalmPlace) (from to : NodeId) (m : Message) → p.run.plan.brokers ≡ 1 →
        WasSent (sent_at p) from to m → IsRefusal m → ⊥ }
    ensures ended { (p : CalmPlace) (b : ℕ) → p.run.plan.brokers ≡ 1 →
        Every (λ (t : Try). WasRefused t.end → ⊥) (tries_of (book_at p b).acts) }
{}
