//! Two readings that agree on the texts of acts give one broker.
// Each law holds for every list of acts.
ghost use Rattle.std.specs.Prelude.{◌≡◌, ◌≤◌, ℕ, List, Some, slice_get};
ghost use Rattle.broker_ledger.specs.Lists.{Every, Has};
ghost use Rattle.broker_ledger.specs.ActSpec.{ActSpec};
ghost use Rattle.broker_ledger.specs.Mirror.{Block};
ghost use Rattle.broker_ledger.specs.Effect.{Effect};
ghost use Rattle.broker_ledger.specs.RowTexts.{script_text};
ghost use Rattle.broker_ledger.specs.Printable.{IsPrintable};
ghost use Rattle.broker_ledger.specs.Questions.{Tree};
ghost use Rattle.broker_ledger.specs.Fits.{keep, resume_fault};
ghost use Rattle.broker_ledger.specs.Ledgers.{IsBrokerAct};
ghost use Rattle.broker_core.specs.Readings.{reading};
ghost use Rattle.broker_ledger.specs.Tasks.{Task, Scripted};
ghost use Rattle.broker_core.specs.Turns.{Desk, Input, desk_turn};

/// Two scripts of the language with one text are one. So the reading of some acts reads each of them,
/// and one reading reads the acts of many plans: that of all their acts.
pub fn law_of_readings()
    ensures apart { (n m : ℕ) (a b : Block) → IsPrintable n a → IsPrintable m b →
        script_text a ≡ script_text b → a ≡ b }
    ensures own { (acts : List ActSpec) → Every IsBrokerAct acts → Scripted (reading acts) acts }
    ensures among { (all acts : List ActSpec) → Every IsBrokerAct all → Every IsBrokerAct acts →
        ((a : ActSpec) → Has a acts → Has a all) →
        Scripted (reading all) acts }
{}

/// Two readings that agree on the texts of a broker's acts give the same turns, count the same of a
/// log, and refuse the same logs.
pub fn readings_agree()
    ensures turns { (s s' : List ℕ → Tree) (me run : ℕ) (acts : List Task) →
        ((i : ℕ) (t : Task) → slice_get acts i ≡ Some t → s t.script ≡ s' t.script)
        → (d : Desk) (i : Input) → desk_turn s me run acts d i ≡ desk_turn s' me run acts d i }
    ensures counts { (s s' : List ℕ → Tree) (me run : ℕ) (acts : List Task) →
        ((i : ℕ) (t : Task) → slice_get acts i ≡ Some t → s t.script ≡ s' t.script)
        → (log : List Effect) → keep s me run acts log ≡ keep s' me run acts log }
    ensures faults { (s s' : List ℕ → Tree) (me run : ℕ) (acts : List Task) →
        ((i : ℕ) (t : Task) → slice_get acts i ≡ Some t → s t.script ≡ s' t.script)
        → (log : List Effect) → resume_fault s me run acts log ≡ resume_fault s' me run acts log }
{}
