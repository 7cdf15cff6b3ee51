//! What archives, totals and snapshots say about the committed attempts of all runs.
// Each law holds over every past: runs of plans that can run and retirements, one after another.
ghost use Rattle.std.specs.Prelude.{◌≤◌, ℕ, List};
ghost use Rattle.pseudo_time.specs.Lists.{Every};
ghost use Rattle.pseudo_time.specs.StampParts.{StampParts};
ghost use Rattle.pseudo_time.specs.TimeParts.{TimeParts};
ghost use Rattle.value_form.specs.declared.objects.ObjectId.{ObjectId};
ghost use Rattle.value_form.specs.declared.values.Value.{Value};
ghost use Rattle.effect_form.specs.declared.effects.Effect.TheVariants as effect;
ghost use Rattle.stream_port.specs.declared.fates.Asked.{Asked};
ghost use Rattle.plan_form.specs.declared.plans.Plan.{Plan};
ghost use Rattle.plan_form.specs.PlanTexts.{CanRun};
ghost use Rattle.world_core.specs.declared.traces.Trace.{Trace};
ghost use Rattle.world_core.specs.Deeds.{before};
ghost use Rattle.world_core.specs.Readings.{IsLegal};
ghost use Rattle.serial_law.specs.Earlier.{Earlier};
ghost use Rattle.archive_law.specs.Archives.{EverStood, IsArchive, IsPast, archive, volumes_left};
ghost use Rattle.archive_law.specs.AsOf.{Decided, HomeKnows, TellsMap, TellsRun, beside_homes, idle_run};
ghost use Rattle.archive_law.specs.Audits.{HasHolder, ListsAll, versions_in};
ghost use Rattle.archive_law.specs.Totals.{AreWatches, CountEach, CountSettled, Event, calls_of};

use commit_watch::WatchRule;

/// The joined marks of a repository's complete volumes have every version that ever stood in a durable log of
/// it, each object and start once, and no other; and a decision that they have of an attempt is that of its home.
///
/// So an audit lists just the versions of the object that ever stood, each once and in rising order, and tells
/// of each the last volume that has it.
pub fn law_of_audit()
    ensures archive { (cs : List Earlier) (r : ℕ) → IsPast cs → IsArchive cs r (archive (volumes_left cs r)) }
    ensures versions { (cs : List Earlier) (r : ℕ) (o : ObjectId) → IsPast cs →
        ListsAll cs r o (versions_in o (archive (volumes_left cs r))) }
    ensures volumes { (cs : List Earlier) (r : ℕ) (o : ObjectId) (x : TimeParts) (v : Value) → IsPast cs →
        EverStood cs r (effect.Put o x v) → HasHolder (volumes_left cs r) o x v }
{}

/// As of a stamp below which they have no undecided version, they tell of the repository's objects the plain
/// map that all committed attempts below it leave: of a plan without acts, which is what was put; and at the
/// end of any run, what the scripts of its committed attempts leave, each carried out alone.
pub fn law_of_asof()
    ensures pasts { (cs : List Earlier) (r n : ℕ) (s : StampParts) → IsPast cs → 1 ≤ r → r ≤ n →
        TellsMap r (archive (volumes_left cs r)) s (before (idle_run cs n) s) }
    ensures runs { (plan : Plan) (asked : List Asked) (t : Trace) → CanRun plan → IsLegal plan asked t →
        TellsRun plan t }
{}

/// Each total that watches left is what the rule makes of all committed versions of the object that ever
/// stood, up to its cursor, each once and in rising order: also where a watch was stopped, and whatever was
/// retired before it or between. A watch that isn't stopped counts all stable versions of its time.
pub fn law_of_totals<R: WatchRule>()
    ensures totals { (r : ℕ) (es : List (Event R.Total)) → IsPast (calls_of es) →
        AreWatches R.first R.next r es → CountEach R.first R.next r es }
    ensures whole { (r : ℕ) (es : List (Event R.Total)) → IsPast (calls_of es) →
        AreWatches R.first R.next r es → CountSettled R.first R.next r es }
{}

/// As of one stamp, the archives of repositories 1 to n together, with whatever their homes' logs know of
/// attempts that they don't: where none of them has an undecided version below it then, each tells its part of
/// the one plain map that all committed attempts below the stamp leave.
pub fn law_of_snapshot()
    ensures { (cs : List Earlier) (r n : ℕ) (s : StampParts) (ds : List Decided) → IsPast cs → 1 ≤ r → r ≤ n →
        Every (HomeKnows cs n) ds →
        TellsMap r (beside_homes ds (archive (volumes_left cs r))) s (before (idle_run cs n) s) }
{}
