//! The law of serial order.
// A place of a trace is the entries before it, so each law holds at the trace's end and after each entry.
ghost use Rattle.pseudo_time.specs.Lists.{Every, Has};
ghost use Rattle.std.specs.Prelude.{◌≡◌, ◌≤◌, ℕ, List, ◌∷◌, ◌++◌};
ghost use Rattle.pseudo_time.specs.StampParts.{StampParts};
ghost use Rattle.effect_form.specs.declared.effects.Effect.{Effect};
ghost use Rattle.effect_form.specs.declared.effects.Effect.TheVariants as effect;
ghost use Rattle.effect_form.specs.declared.outcomes.Outcome.{Outcome};
ghost use Rattle.message_form.specs.Posts.{Post};
ghost use Rattle.broker_core.specs.Book.{book};
ghost use Rattle.pseudo_time.specs.Nodes.{broker};
ghost use Rattle.effect_form.specs.declared.outcomes.Outcome.TheVariants as outcome;
ghost use Rattle.broker_laws.specs.Fits.{MayTry};
ghost use Rattle.broker_laws.specs.Posts.{IsWithinLimits};
ghost use Rattle.world_facts.specs.AnyRules.{log_before};
ghost use Rattle.serial_law.specs.Added.{AnyPlace, any_log, EndCause};
ghost use Rattle.serial_law.specs.Causes.{Causes, IsSpent};
ghost use Rattle.value_form.specs.declared.acts.ActSpec.{ActSpec};
ghost use Rattle.value_form.specs.declared.objects.ObjectId.{ObjectId};
ghost use Rattle.value_form.specs.Objects.{value_at};
ghost use Rattle.world_core.specs.Deeds.{RunLogs, Try, before, finals};
ghost use Rattle.trace_report.specs.Finals.{last_values};
ghost use Rattle.serial_law.specs.Facts.{RunFacts};
ghost use Rattle.serial_law.specs.Runs.{Position, happened_before, log_at, olds_at, run_at, whole_at};
ghost use Rattle.serial_law.specs.Serial.{Serial, HoldsAll, HoldsBefore};
ghost use Rattle.serial_law.specs.Wholes.{KeepsPuts};

/// Every attempt of a run reads, writes and ends as its script does alone, over the map after the
/// committed deeds before its stamp (Bernstein et al. 1987, chapter 5): at each place of each legal
/// trace over logs that runs and retirements left, with crashes anywhere, and of all logs and messages
/// with these facts. The logs are taken with all versions that ever stood there. In the logs as they
/// stand each put of a committed attempt is one of its Wrote lines, and each Wrote line has its put,
/// unless a retirement gave it up for a later one.
pub fn law_serial()
    ensures places { (p : Position) → Serial (whole_at p) }
    ensures puts { (p : Position) → KeepsPuts (run_at p) }
    ensures facts { (k : RunLogs) (ever : List Post) → RunFacts k ever → Serial k }
{}

/// The map after all committed deeds has, of each object, the committed put with the greatest start, else
/// Nothing. A put that a retirement gave up isn't that one, so the logs as they stand tell the whole map,
/// and no deed need be carried out for it.
pub fn law_finals()
    ensures places { (p : Position) (o : ObjectId) →
        value_at (last_values (run_at p)) o ≡ value_at (finals (whole_at p)) o }
    ensures facts { (k : RunLogs) (ever : List Post) → RunFacts k ever → HoldsAll k (finals k) }
{}

/// The map before a stamp has, of each object, the committed put with the greatest start below it, among
/// all versions that ever stood.
pub fn law_before()
    ensures places { (p : Position) (s : StampParts) → HoldsBefore (whole_at p) s (before (whole_at p) s) }
    ensures facts { (k : RunLogs) (ever : List Post) → RunFacts k ever → (s : StampParts) →
        HoldsBefore k s (before k s) }
{}

/// The clock of each attempt of a run is at least one that all acts of its plan have. So where that is above
/// the clocks of a past, the map before an attempt has all that the past committed.
pub fn law_clocks()
    ensures { (p : Position) (c : ℕ) → Every (λ (a : ActSpec). c ≤ a.clock) p.plan.acts →
        (try : Try) → Has try (run_at p).tries → c ≤ try.stamp.clock }
{}

/// Each End of an attempt of the run has its cause in the logs, or in older ones that were retired: a
/// decision at its home, the end that its script came to, a read, a mark or a version above the write
/// that was refused, or a mark above the read that was. Its repository took that request, and answered
/// so, in the trace before that place or in the past, where the moment of an expiry was ticked too. An
/// act is spent only where a new attempt may begin and no clock is left above those of the log and the
/// one that its refusals showed; it has at most its number of attempts.
///
/// Over logs without a past, too, each End that the trace added has its cause: a refusal, the end of a
/// script, or that no clock was left.
pub fn law_causes()
    ensures ends { (p : Position) → Causes (run_at p) (olds_at p) (happened_before p) }
    ensures spent { (p : Position) (b i c : ℕ) (late early : List Effect) →
        log_at p (broker b) ≡ late ++ (effect.End i (outcome.Spent c) ∷ early) →
        MayTry i (book early).acts (IsSpent (book early) c) }
    ensures limits { (p : Position) (b : ℕ) → Every IsWithinLimits (book (log_at p (broker b))).acts }
    ensures added { (p : AnyPlace) (b i : ℕ) (o : Outcome) (late early : List Effect) →
        any_log p (broker b) ≡ late ++ (effect.End i o ∷ (early ++ log_before p.trace (broker b))) →
        EndCause p b (early ++ log_before p.trace (broker b)) i o }
{}
