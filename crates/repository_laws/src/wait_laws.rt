//! Laws of what waits for a decision: it is answered or told.
// Logs stand newest first.
ghost use Rattle.std.specs.Prelude.{◌≡◌, ◌⊎◌, ℕ, Bool, Some, None};
ghost use Rattle.pseudo_time.specs.Lists.{Every, Has};
ghost use Rattle.pseudo_time.specs.StampParts.{StampParts};
ghost use Rattle.pseudo_time.specs.TimeParts.{TimeParts};
ghost use Rattle.pseudo_time.specs.Nodes.{repository};
ghost use Rattle.pseudo_time.specs.declared.nodes.NodeId.{NodeId};
ghost use Rattle.value_form.specs.declared.objects.ObjectId.{ObjectId};
ghost use Rattle.message_form.specs.declared.messages.Message.TheVariants as message;
ghost use Rattle.repository_log.specs.Logs.{known, record_of};
ghost use Rattle.repository_core.specs.Asker.{Asker};
ghost use Rattle.repository_core.specs.Hands.{Hand, now};
ghost use Rattle.repository_core.specs.Rows.{on_learn, on_message};
ghost use Rattle.repository_core.specs.Turns.{Input, hand_turn};
ghost use Rattle.repository_laws.specs.Waits.{Waits, AreOf, IsOf, KeepsReads, AreOpen, IsKeptOrTold};

/// In every turn a read that was held stays held or is answered. What is held waits for a version
/// below it whose attempt isn't decided, and the home of that attempt was asked. Each pseudotime asks
/// for one object, and one broker asks.
pub fn held_reads_wait()
    ensures { (asked : TimeParts → ObjectId × NodeId) (h : Hand) (i : Input) → AreOf asked h.held → IsOf asked i →
        Every (Waits (now h)) h.held →
        KeepsReads asked h (hand_turn h i) }
{}

/// In every turn a repository that asked how an attempt is decided is kept while it isn't, and then
/// told. An Ask that is taken is kept or answered, once its attempt has a record.
pub fn askers_are_told()
    ensures told { (h : Hand) (i : Input) (a : Asker) → AreOpen h → Has a h.askers → IsKeptOrTold (hand_turn h i) a }
    ensures kept { (h : Hand) (i : Input) → AreOpen h → AreOpen (hand_turn h i) }
    ensures asked { (h : Hand) (r : ℕ) (s : StampParts) → s.home ≡ h.number → (record_of (now h) s ≡ None → ⊥) →
        IsKeptOrTold (on_message h (repository r) (message.Ask s)) (record { repository = r; stamp = s }) }
{}

/// After a decision was learned its attempt is known to be decided: as it was learned, or as the log
/// said before.
pub fn learned_is_known()
    ensures { (h : Hand) (s : StampParts) (c : Bool) → (x : Bool) × (known (now (on_learn h s c)) s ≡ Some x) }
{}
