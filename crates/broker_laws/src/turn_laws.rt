//! Laws of a broker's turns.
// What a broker's turns keep. Logs stand newest first. `script` reads the texts of scripts.
ghost use Rattle.std.specs.Prelude.{◌≡◌, ◌++◌, ℕ, List, [], Option, Some, None, true};
ghost use Rattle.pseudo_time.specs.Lists.{Every};
ghost use Rattle.pseudo_time.specs.declared.nodes.NodeId.{NodeId};
ghost use Rattle.effect_form.specs.declared.effects.Effect.{Effect};
ghost use Rattle.message_form.specs.declared.messages.Message.{Message};
ghost use Rattle.message_form.specs.declared.turns.Out.{Out};
ghost use Rattle.message_form.specs.Posts.{Post};
ghost use Rattle.serial_model.specs.Questions.{Tree};
ghost use Rattle.broker_core.specs.Tasks.{Task};
ghost use Rattle.broker_core.specs.Owed.{done};
ghost use Rattle.broker_core.specs.Rows.{row, news};
ghost use Rattle.broker_core.specs.Stages.{nothing_heard, stage, standing};
ghost use Rattle.broker_core.specs.Turns.{Desk, Input, Go, Take, state, desk_turn};
ghost use Rattle.broker_core.specs.declared.replies.Reply.TheVariants.{Ignored};
ghost use Rattle.broker_laws.specs.AnyLogs.{GoesOn};
ghost use Rattle.broker_laws.specs.Fits.{IsTidy, IsReady};
ghost use Rattle.broker_laws.specs.Posts.{HaveCauses};
ghost use Rattle.broker_laws.specs.Waits.{Waits, IsCalm, OutSound, BegunCame, DecidedCame};
ghost use Rattle.broker_laws.specs.Works.{TurnHolds, MayInput, Added, IsRested, AlwaysReady, AsksNobody, gate, crash, afresh, joined};

/// Each turn, each gate and each crash keeps a broker right: its effects fit the log, one by one, each
/// with its cause; what its messages say holds; and its log shows no later run and no other plan.
pub fn turns_keep_facts()
    ensures turn { (script : List ℕ → Tree) (me run : ℕ) (acts : List Task) (ever : List Post) (d : Desk) (i : Input) →
        TurnHolds script me run acts ever d → MayInput me ever i →
        TurnHolds script me run acts ever (desk_turn script me run acts d i) }
    ensures gated { (script : List ℕ → Tree) (me run : ℕ) (acts : List Task) (ever : List Post) (d : Desk) →
        TurnHolds script me run acts ever d → TurnHolds script me run acts ever (gate d) }
    ensures crashed { (script : List ℕ → Tree) (me run : ℕ) (acts : List Task) (ever : List Post)
        (kept : ℕ) (d : Desk) →
        TurnHolds script me run acts ever d → TurnHolds script me run acts ever (crash kept d) }
{}

/// Causes stay as more messages are sent.
pub fn causes_stay()
    ensures { (script : List ℕ → Tree) (me : ℕ) (ever more : List Post) (log : List Effect) → HaveCauses me ever log →
        HaveCauses me (ever ++ more) log }
{}

/// Over every log, a turn only adds effects, and all of these count.
pub fn turns_add_what_counts()
    ensures { (script : List ℕ → Tree) (me run : ℕ) (acts : List Task) (d : Desk) (i : Input) →
        Added script me run acts d (desk_turn script me run acts d i) }
{}

/// Over every log that shows no later run and no other plan, none shows with any beginning of the
/// effects that a turn adds: a broker that is opened again after a crash never finds another plan.
pub fn always_ready()
    ensures { (script : List ℕ → Tree) (me run : ℕ) (acts : List Task) (d : Desk) (i : Input) →
        AlwaysReady script me run acts d →
        AlwaysReady script me run acts (desk_turn script me run acts d i) }
{}

/// Over every log, nothing is owed after a go, and so it stays.
pub fn nothing_stays_owed()
    ensures go { (script : List ℕ → Tree) (me run : ℕ) (acts : List Task) (d : Desk) →
        IsRested script me run acts (desk_turn script me run acts d Go) }
    ensures turn { (script : List ℕ → Tree) (me run : ℕ) (acts : List Task) (d : Desk) (i : Input) →
        IsRested script me run acts d → IsRested script me run acts (desk_turn script me run acts d i) }
{}

/// A log whose effects fit, each with its cause, opens a right broker where it is ready; so does the
/// empty log.
pub fn opened_brokers()
    ensures any { (script : List ℕ → Tree) (me run : ℕ) (acts : List Task) (ever : List Post) (log : List Effect) →
        IsTidy script me log → HaveCauses me ever log → IsReady script me run acts log →
        TurnHolds script me run acts ever (record { past = log; added = []; outs = []; heard = nothing_heard }) }
    ensures empty { (script : List ℕ → Tree) (me run : ℕ) (acts : List Task) (ever : List Post) →
        TurnHolds script me run acts ever (record { past = []; added = []; outs = []; heard = nothing_heard }) }
{}

/// Where nothing is owed and no request is outstanding, each act has its outcome.
pub fn rested_is_done()
    ensures { (script : List ℕ → Tree) (me run : ℕ) (acts : List Task) (ever : List Post) (d : Desk) →
        TurnHolds script me run acts ever d → IsRested script me run acts d →
        standing (stage script run (state script me run acts d) d.heard) ≡ None →
        done script run acts (state script me run acts d) d.heard ≡ true }
{}

/// A turn looks at the whole log and at what was heard alone, and what it gives is added.
pub fn turns_look_at_the_log()
    ensures { (script : List ℕ → Tree) (me run : ℕ) (acts : List Task) (d : Desk) (i : Input) →
        desk_turn script me run acts d i ≡ joined d (desk_turn script me run acts (afresh d) i) }
{}

/// After a message that was heard, the request that is outstanding isn't the one that was before.
pub fn new_request_differs()
    ensures { (script : List ℕ → Tree) (me run : ℕ) (acts : List Task) (ever : List Post) (d : Desk)
        (from : NodeId) (m : Message) →
        TurnHolds script me run acts ever d →
        (row script (stage script run (state script me run acts d) d.heard) d.heard (news m) ≡ Ignored → ⊥) →
        (o : Out) → standing (stage script run (state script me run acts d) d.heard) ≡ Some o →
        standing (stage script run (state script me run acts (desk_turn script me run acts d (Take from m)))
        (desk_turn script me run acts d (Take from m)).heard) ≡ Some o → ⊥ }
{}

/// Over every log, also over one that no calls could have left, what a turn adds counts and fits, each
/// effect with its cause, and its messages say what holds of the tries of its run.
pub fn turns_go_on()
    ensures { (script : List ℕ → Tree) (me run : ℕ) (acts : List Task) (ever : List Post) (d : Desk) (i : Input) →
        MayInput me ever i → GoesOn script me run acts ever d →
        GoesOn script me run acts ever (desk_turn script me run acts d i) }
{}

/// Over every log, a broker asks nobody for a decision: a turn adds no Ask to the messages that it owes.
pub fn brokers_ask_nobody()
    ensures { (script : List ℕ → Tree) (me run : ℕ) (acts : List Task) (d : Desk) (i : Input) →
        Every (λ (o : Out). AsksNobody o.message) d.outs
        → Every (λ (o : Out). AsksNobody o.message) (desk_turn script me run acts d i).outs }
{}

/// In a broker's first run, where no Ended comes: a Try is added only after a Decided of each try before
/// it has come, a request of a try stands only after a Begun or a Decided of its stamp has come, and a
/// Withdraw only after the try has its End.
pub fn requests_wait_for_answers()
    ensures empty { (script : List ℕ → Tree) (me run : ℕ) (acts : List Task) (ever : List Post) →
        Waits script me run acts ever (record { past = []; added = []; outs = []; heard = nothing_heard }) }
    ensures turn { (script : List ℕ → Tree) (me run : ℕ) (acts : List Task) (ever : List Post) (d : Desk) (i : Input) →
        MayInput me ever i → IsCalm i → Waits script me run acts ever d →
        Waits script me run acts ever (desk_turn script me run acts d i) }
    ensures standing { (script : List ℕ → Tree) (me run : ℕ) (acts : List Task) (ever : List Post) (d : Desk)
        (o : Out) → Waits script me run acts ever d →
        standing (stage script run (state script me run acts d) d.heard) ≡ Some o →
        OutSound run (BegunCame me ever) (DecidedCame me ever) (state script me run acts d) o.message }
{}
