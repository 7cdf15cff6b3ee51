//! Laws of a broker's log.
// What holds of a broker's log, which stands newest first. `script` reads the texts of scripts.
ghost use Rattle.std.specs.Prelude.{◌≡◌, ◌++◌, ◌∷◌, ◌↔◌, ℕ, List, Option, Some, None, slice_get};
ghost use Rattle.pseudo_time.specs.Lists.{Every};
ghost use Rattle.pseudo_time.specs.StampParts.{StampParts};
ghost use Rattle.pseudo_time.specs.TimeParts.{TimeParts};
ghost use Rattle.pseudo_time.specs.declared.nodes.NodeId.{NodeId};
ghost use Rattle.effect_form.specs.declared.effects.Effect.{Effect};
ghost use Rattle.message_form.specs.declared.messages.Message.{Message};
ghost use Rattle.message_form.specs.Growth.{Grew};
ghost use Rattle.message_form.specs.Posts.{Post};
ghost use Rattle.script_meaning.specs.Meaning.{Request};
ghost use Rattle.serial_model.specs.Questions.{Tree};
ghost use Rattle.broker_core.specs.Tasks.{Task};
ghost use Rattle.broker_core.specs.Book.{Try, book, tries, tries_of, find, open_try, last_try};
ghost use Rattle.broker_core.specs.Fits.{keep, resume_fault};
ghost use Rattle.broker_laws.specs.Fits.{FitsBook, FitsLog, IsTidy, IsReady};
ghost use Rattle.broker_core.specs.Sound.{Started};
ghost use Rattle.broker_laws.specs.Posts.{Clocks, Distinct, IsLater, PostHolds, HaveCauses, IsAskOf, IsLate, IsPlanned, IsPlayed, IsProven, IsWithinLimits};

/// No stamp of a log is above its clock, each is the broker's own, and no two are equal: over all runs
/// of the log.
pub fn stamps_are_own()
    ensures below { (script : List ℕ → Tree) (me : ℕ) (log : List Effect) → IsTidy script me log →
        Clocks me (book log) }
    ensures distinct { (script : List ℕ → Tree) (me : ℕ) (log : List Effect) → IsTidy script me log →
        Distinct (tries (book log)) }
{}

/// A try of the book is found by its stamp.
pub fn tries_are_found()
    ensures { (ts : List Try) (i : ℕ) (t : Try) → Distinct ts → slice_get ts i ≡ Some t → find t.stamp ts ≡ Some t }
{}

/// A try stays the same try, and what was sent stays right, as the log grows by effects that fit.
/// Begin and Withdraw name a try of the log and go to its home; a Read or Write is what the script asks
/// at its step after the answers in the log; and a Commit was sent only where the whole transcript
/// stands and the script is finished.
pub fn messages_stay_true()
    ensures later { (script : List ℕ → Tree) (me : ℕ) (log : List Effect) (f : Effect) (s : StampParts) (t : Try) →
        IsTidy script me log → FitsBook script me (book log) f → find s (tries (book log)) ≡ Some t →
        (u : Try) × (find s (tries (book (f ∷ log))) ≡ Some u) × IsLater t u }
    ensures kept { (script : List ℕ → Tree) (me : ℕ) (log : List Effect) (f : Effect) (to : NodeId) (m : Message) →
        IsTidy script me log → FitsBook script me (book log) f → PostHolds script me (tries (book log)) to m →
        PostHolds script me (tries (book (f ∷ log))) to m }
    ensures grown { (script : List ℕ → Tree) (me : ℕ) (log added : List Effect) (to : NodeId) (m : Message) →
        IsTidy script me log → Grew (FitsLog script me) log added → PostHolds script me (tries (book log)) to m →
        PostHolds script me (tries (book (added ++ log))) to m }
{}

/// All Reads and Writes that a broker sends with one pseudotime are equal.
pub fn one_request()
    ensures { (script : List ℕ → Tree) (ts : List Try) (x : TimeParts) (q r : Request) → IsAskOf script ts x q →
        IsAskOf script ts x r → q ≡ r }
{}

/// The clock of each try is at least that of its act.
pub fn tries_are_late()
    ensures { (script : List ℕ → Tree) (me : ℕ) (ever : List Post) (log : List Effect) →
        IsTidy script me log → HaveCauses me ever log → Every IsLate (tries (book log)) }
{}

/// Of a log whose effects fit, and that is ready, every effect counts, and its acts are the plan's; and
/// it was ready before.
pub fn log_counts_whole()
    ensures whole { (script : List ℕ → Tree) (me run : ℕ) (acts : List Task) (log : List Effect) →
        IsTidy script me log → IsReady script me run acts log → keep script me run acts log ≡ log }
    ensures started { (script : List ℕ → Tree) (me run : ℕ) (acts : List Task) (log : List Effect) →
        IsTidy script me log → IsReady script me run acts log → (book log).run ≡ run → Started acts (book log).acts }
    ensures planned { (script : List ℕ → Tree) (me run : ℕ) (acts : List Task) (log : List Effect) →
        IsTidy script me log → IsReady script me run acts log → (book log).run ≡ run →
        Every (IsPlanned run acts) (tries_of (book log).acts) }
    ensures before { (script : List ℕ → Tree) (me run : ℕ) (acts : List Task) (late log : List Effect) →
        IsTidy script me (late ++ log) → IsReady script me run acts (late ++ log) → IsReady script me run acts log }
{}

/// Each answer was asked for and came in a message; each End is what the script allows, and came in a
/// message where another node gave it.
pub fn answers_came()
    ensures asked { (script : List ℕ → Tree) (me : ℕ) (log : List Effect) → IsTidy script me log →
        Every (IsPlayed script) (tries (book log)) }
    ensures came { (script : List ℕ → Tree) (me : ℕ) (ever : List Post) (log : List Effect) →
        IsTidy script me log → HaveCauses me ever log → Every (IsProven me ever) (tries (book log)) }
{}

/// Of every log: the last try of the run, where it has no End, is the open one.
pub fn open_try_is_last()
    ensures { (script : List ℕ → Tree) (me run : ℕ) (acts : List Task) (log : List Effect) (t : Try) →
        (book (keep script me run acts log)).run ≡ run → last_try (book (keep script me run acts log)) ≡ Some t →
        t.end ≡ None →
        open_try (book (keep script me run acts log)) ≡ Some t }
{}

/// No act has more tries than it may have, and one is spent only where no greater clock is left.
pub fn limits_hold()
    ensures { (script : List ℕ → Tree) (me : ℕ) (log : List Effect) → IsTidy script me log →
        Every IsWithinLimits ((book log).acts ++ (book log).past) }
{}

/// A log is ready exactly where opening it gives no fault.
pub fn ready_is_no_fault()
    ensures { (script : List ℕ → Tree) (me run : ℕ) (acts : List Task) (log : List Effect) →
        IsReady script me run acts log ↔ (resume_fault script me run acts log ≡ None) }
{}
