//! What is known of every run: decisions agree, and answers were sent.
// What holds of all logs and messages at each place of a legal trace, and keeps its run serial.
ghost use Rattle.std.specs.Prelude.{◌≡◌, ℕ, Bool, false};
ghost use Rattle.pseudo_time.specs.Lists.{Every, Has};
ghost use Rattle.pseudo_time.specs.StampParts.{StampParts};
ghost use Rattle.pseudo_time.specs.Order.{lt};
ghost use Rattle.pseudo_time.specs.TimeParts.{TimeParts};
ghost use Rattle.pseudo_time.specs.declared.decisions.Decision.{Decision};
ghost use Rattle.pseudo_time.specs.declared.decisions.Decision.TheVariants as decision;
ghost use Rattle.pseudo_time.specs.declared.nodes.NodeId.{NodeId};
ghost use Rattle.value_form.specs.declared.objects.ObjectId.{ObjectId};
ghost use Rattle.value_form.specs.declared.values.Value.{Value};
ghost use Rattle.effect_form.specs.declared.effects.Effect.TheVariants as effect;
ghost use Rattle.message_form.specs.declared.messages.Message.{Message};
ghost use Rattle.message_form.specs.declared.messages.Message.TheVariants as message;
ghost use Rattle.repository_laws.specs.Facts as repositories;
ghost use Rattle.broker_core.specs.Book.{book, tries};
ghost use Rattle.pseudo_time.specs.Nodes.{broker, repository};
ghost use Rattle.broker_laws.specs.Fits as brokers;
ghost use Rattle.broker_laws.specs.Posts.{Distinct, IsPlayed, IsProven, PostHolds};
ghost use Rattle.message_form.specs.Posts.{WasSent};
ghost use Rattle.serial_law.specs.Answers.{IsAnsweredThere, StoredBefore};
ghost use Rattle.serial_law.specs.Facts.{RunFacts};
ghost use Rattle.serial_law.specs.Runs.{Position, log_at, sent_before, whole_at};

/// An attempt is decided at its home alone, in one way, and nothing is learned of it there. What is
/// learned of it elsewhere agrees with the decision in its home's durable log.
pub fn decisions_agree()
    ensures home { (p : Position) (r : ℕ) (s : StampParts) (d : Decision) →
        Has (effect.Decide s d) (log_at p (repository r)) → s.home ≡ r }
    ensures once { (p : Position) (r : ℕ) (s : StampParts) (d e : Decision) →
        Has (effect.Decide s d) (log_at p (repository r)) →
        Has (effect.Decide s e) (log_at p (repository r)) → d ≡ e }
    ensures apart { (p : Position) (r : ℕ) (s : StampParts) (d : Decision) (c : Bool) →
        Has (effect.Decide s d) (log_at p (repository r)) →
        Has (effect.Learn s c) (log_at p (repository r)) → ⊥ }
    ensures learned { (p : Position) (r : ℕ) (s : StampParts) (c : Bool) →
        Has (effect.Learn s c) (log_at p (repository r)) →
        repositories.IsDecidedAt (λ k. log_at p (repository k)) s c }
{}

/// Each answer in a broker's log was asked for, and came in a message; each End is what the script allows,
/// and came in a message where another node gave it. Of all runs of the log.
pub fn answers_were_sent()
    ensures asked { (p : Position) (b : ℕ) → Every (IsPlayed p.script) (tries (book (log_at p (broker b)))) }
    ensures sent { (p : Position) (b : ℕ) → Every (IsProven b (sent_before p)) (tries (book (log_at p (broker b)))) }
{}

/// Each answer that a try got, and each refusal, was sent by the repository of the object that was asked
/// for. Of all runs of the log.
pub fn answers_come_from_there()
    ensures { (p : Position) (b : ℕ) → Every (IsAnsweredThere p.script b (sent_before p))
        (tries (book (log_at p (broker b)))) }
{}

/// One pseudotime carries one request: all Reads and Writes that were ever sent with it are equal.
pub fn one_request_each()
    ensures reads { (p : Position) (b : ℕ) (to two : NodeId) (x : TimeParts) (o u : ObjectId) →
        WasSent (sent_before p) (broker b) to (message.Read x o) →
        WasSent (sent_before p) (broker b) two (message.Read x u) → o ≡ u }
    ensures writes { (p : Position) (b : ℕ) (to two : NodeId) (x : TimeParts) (o u : ObjectId) (v w : Value) →
        WasSent (sent_before p) (broker b) to (message.Write x o v) →
        WasSent (sent_before p) (broker b) two (message.Write x u w) → (o ≡ u) × (v ≡ w) }
    ensures apart { (p : Position) (b : ℕ) (to two : NodeId) (x : TimeParts) (o u : ObjectId) (w : Value) →
        WasSent (sent_before p) (broker b) to (message.Read x o) →
        WasSent (sent_before p) (broker b) two (message.Write x u w) → ⊥ }
{}

/// A read answers what its own attempt wrote last to the object before, where such a write was stored.
pub fn reads_see_own_writes()
    ensures { (p : Position) (x : TimeParts) (v : Value) (o : ObjectId) (y : TimeParts) (w : Value) →
        WasSent (sent_before p) (broker x.stamp.broker) (repository o.repository) (message.Read x o) →
        WasSent (sent_before p) (repository o.repository) (broker x.stamp.broker) (message.Value x v) →
        StoredBefore (sent_before p) x o y w →
        ((z : TimeParts) (u : Value) → StoredBefore (sent_before p) x o z u → lt y z ≡ false) → v ≡ w }
{}

/// What a broker ever sent is right by its durable log: a Read or Write is what the script asks after the
/// answers before it, Begin and Withdraw name an attempt and its home, and a Commit was sent only where
/// the whole transcript stands and the script is finished.
pub fn requests_are_the_scripts()
    ensures { (p : Position) (b : ℕ) (to : NodeId) (m : Message) →
        Has (record { from = broker b; to = to; message = m }) (sent_before p) →
        PostHolds p.script b (tries (book (log_at p (broker b)))) to m }
{}

/// Each effect of a log fits the log below it; no two attempts of a broker have one stamp; each version
/// and each commit was asked for by its attempt's broker.
pub fn logs_fit()
    ensures repositories { (p : Position) (r : ℕ) → repositories.IsTidy r (log_at p (repository r)) }
    ensures brokers { (p : Position) (b : ℕ) → brokers.IsTidy p.script b (log_at p (broker b)) }
    ensures stamps { (p : Position) (b : ℕ) → Distinct (tries (book (log_at p (broker b)))) }
    ensures puts { (p : Position) (r : ℕ) (o : ObjectId) (x : TimeParts) (v : Value) →
        Has (effect.Put o x v) (log_at p (repository r)) →
        repositories.WriteSent (sent_before p) r x o v }
    ensures commits { (p : Position) (r : ℕ) (s : StampParts) →
        Has (effect.Decide s decision.Committed) (log_at p (repository r)) →
        WasSent (sent_before p) (broker s.broker) (repository r) (message.Commit s) }
{}

/// All of these, as the central theorem uses them, of the run with all versions that ever stood.
pub fn law_facts()
    ensures { (p : Position) → RunFacts (whole_at p) (sent_before p) }
{}
