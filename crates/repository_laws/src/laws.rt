//! Laws of a repository's log and of its turns.
// Logs stand newest first.
ghost use Rattle.std.specs.Prelude.{◌≡◌, ℕ, Bool, true, List, [], ◌∷◌, ◌++◌, None};
ghost use Rattle.pseudo_time.specs.Lists.{Every, Has};
ghost use Rattle.pseudo_time.specs.StampParts.{StampParts};
ghost use Rattle.pseudo_time.specs.TimeParts.{TimeParts};
ghost use Rattle.pseudo_time.specs.declared.decisions.Decision.{Decision};
ghost use Rattle.pseudo_time.specs.declared.nodes.NodeId.{NodeId};
ghost use Rattle.effect_form.specs.declared.effects.Effect.{Effect};
ghost use Rattle.effect_form.specs.declared.effects.Effect.TheVariants as effect;
ghost use Rattle.message_form.specs.declared.messages.Message.{Message};
ghost use Rattle.message_form.specs.Posts.{Post, WasSent};
ghost use Rattle.message_form.specs.Growth.{Grew};
ghost use Rattle.object_history.specs.History.{floor_of};
ghost use Rattle.object_history.specs.Views.{Distinct};
ghost use Rattle.repository_core.specs.HeldRead.{HeldRead};
ghost use Rattle.repository_core.specs.Logs.{marks};
ghost use Rattle.repository_core.specs.Hands.{Hand, Mind};
ghost use Rattle.pseudo_time.specs.Nodes.{repository};
ghost use Rattle.repository_core.specs.Turns.{hand_at, hand_turn};
ghost use Rattle.repository_core.specs.Turns.Input.{Taking, Learning, Hearing};
ghost use Rattle.repository_laws.specs.Facts.{IsTimely, FitsLog, IsTidy, PostHolds, IsDecidedAt, RestsOn, HeldHolds, HasCome};
ghost use Rattle.repository_laws.specs.AnyLogs.{RefusesRightly};
ghost use Rattle.repository_core.specs.Rows.{accepts, on_message};
ghost use Rattle.repository_laws.specs.Served.{IsServed};
ghost use Rattle.repository_laws.specs.Givens.{IsGiven, Gives};

/// Effects that fit leave a tidy log tidy, and no two versions of an object in it have one start. No
/// effect that fits is a floor.
pub fn tidy_stays()
    ensures empty { (r : ℕ) → IsTidy r [] }
    ensures kept { (r : ℕ) (log : List Effect) (f : Effect) → FitsLog r log f → IsTidy r log → IsTidy r (f ∷ log) }
    ensures through { (r : ℕ) (log added : List Effect) → Grew (FitsLog r) log added → IsTidy r log →
        IsTidy r (added ++ log) }
    ensures distinct { (r : ℕ) (log : List Effect) → IsTidy r log → Distinct (marks log) }
    ensures no_floor { (r : ℕ) (log added : List Effect) → Grew (FitsLog r) log added →
        floor_of (marks (added ++ log)) ≡ floor_of (marks log) }
{}

/// An attempt is decided at its home, once, after its Begin, not before its deadline where it expired,
/// and it is learned elsewhere alone.
pub fn decided_once()
    ensures home { (r : ℕ) (log : List Effect) (s : StampParts) (d : Decision) → IsTidy r log →
        Has (effect.Decide s d) log → s.home ≡ r }
    ensures cause { (r : ℕ) (log : List Effect) (s : StampParts) (d : Decision) → IsTidy r log →
        Has (effect.Decide s d) log → (t : ℕ) ×
        Has (effect.Begin s t) log × IsTimely t d }
    ensures once { (r : ℕ) (log : List Effect) (s : StampParts) (d e : Decision) → IsTidy r log →
        Has (effect.Decide s d) log →
        Has (effect.Decide s e) log → d ≡ e }
    ensures elsewhere { (r : ℕ) (log : List Effect) (s : StampParts) (d : Decision) (c : Bool) → IsTidy r log →
        Has (effect.Decide s d) log →
        Has (effect.Learn s c) log → ⊥ }
{}

/// What a message said of its sender's log stays true: under each effect that fits, under a whole turn
/// or the part of it that a crash keeps, and as more messages are sent.
pub fn messages_stay_true()
    ensures step { (ever : List Post) (r : ℕ) (log : List Effect) (f : Effect) (to : NodeId) (m : Message) →
        FitsLog r log f → PostHolds ever r log to m →
        PostHolds ever r (f ∷ log) to m }
    ensures through { (ever : List Post) (r : ℕ) (log added : List Effect) (to : NodeId) (m : Message) →
        Grew (FitsLog r) log added →
        PostHolds ever r log to m → PostHolds ever r (added ++ log) to m }
    ensures more { (ever more : List Post) (r : ℕ) (log : List Effect) (to : NodeId) (m : Message) →
        PostHolds ever r log to m →
        PostHolds (ever ++ more) r log to m }
{}

/// The causes of effects and of held reads stay, as more is sent, more ticks pass and the logs grow.
pub fn causes_stay()
    ensures effects { (ever more : List Post) (homes longer : ℕ → List Effect) (ticks late : List ℕ)
        (r : ℕ) (f : Effect) →
        ((n : ℕ) (g : Effect) → Has g (homes n) → Has g (longer n)) → RestsOn ever homes ticks r f →
        RestsOn (ever ++ more) longer (ticks ++ late) r f }
    ensures held { (ever more : List Post) (r : ℕ) (e : TimeParts × HeldRead) → HeldHolds ever r e →
        HeldHolds (ever ++ more) r e }
{}

/// Each turn adds effects that fit, one by one, each with its cause; what its messages say holds of the
/// log with them, and its held reads were sent. The input is a message that was sent, and what it tells of
/// a decision stands in its sender's durable log; or a decision that stands in the durable log of its
/// stamp's home; or a moment that was ticked.
pub fn turns_keep_facts()
    ensures taking { (ever : List Post) (homes : ℕ → List Effect) (ticks : List ℕ) (r : ℕ) (log : List Effect)
        (mind : Mind) (from : NodeId) (m : Message) →
        IsGiven ever homes r log mind → HasCome ever homes r from m →
        Gives ever homes ticks r log (hand_turn (hand_at r log mind) (Taking from m)) }
    ensures learning { (ever : List Post) (homes : ℕ → List Effect) (ticks : List ℕ) (r : ℕ) (log : List Effect)
        (mind : Mind) (s : StampParts) (c : Bool) →
        IsGiven ever homes r log mind → IsDecidedAt homes s c →
        Gives ever homes ticks r log (hand_turn (hand_at r log mind) (Learning s c)) }
    ensures hearing { (ever : List Post) (homes : ℕ → List Effect) (ticks : List ℕ) (r : ℕ) (log : List Effect)
        (mind : Mind) (m : ℕ) →
        IsGiven ever homes r log mind → Has m ticks →
        Gives ever homes ticks r log (hand_turn (hand_at r log mind) (Hearing m)) }
{}

/// Over every log, also over one that no calls could have left, a turn refuses a request only where the
/// log says so, if the reads that it holds were sent by those who are to be answered; and so they were
/// after it.
pub fn refusals_are_right()
    ensures taking { (ever : List Post) (r : ℕ) (log : List Effect) (mind : Mind) (from : NodeId) (m : Message) →
        Every (HeldHolds ever r) mind.held →
        WasSent ever from (repository r) m →
        RefusesRightly ever r log (hand_turn (hand_at r log mind) (Taking from m)) }
    ensures learning { (ever : List Post) (r : ℕ) (log : List Effect) (mind : Mind) (s : StampParts) (c : Bool) →
        Every (HeldHolds ever r) mind.held →
        RefusesRightly ever r log (hand_turn (hand_at r log mind) (Learning s c)) }
    ensures hearing { (ever : List Post) (r : ℕ) (log : List Effect) (mind : Mind) (m : ℕ) →
        Every (HeldHolds ever r) mind.held →
        RefusesRightly ever r log (hand_turn (hand_at r log mind) (Hearing m)) }
{}

/// A request that isn't ignored is answered in the turn that takes it, or, a read that waits for an
/// undecided version, held.
pub fn requests_are_served()
    ensures { (h : Hand) (from : NodeId) (m : Message) → accepts h.number from m ≡ true →
        IsServed h (on_message h from m) from m }
{}
