//! What a retirement keeps, and what it gives up.
// Each law holds for lists of marks, or for logs, newest first.
ghost use Rattle.std.specs.Prelude.{◌≡◌, ◌⊎◌, ◌≤◌, Bool, true, false, List, ◌∷◌, Some};
ghost use Rattle.pseudo_time.specs.Lists.{Has};
ghost use Rattle.pseudo_time.specs.declared.decisions.Decision.{Decision};
ghost use Rattle.pseudo_time.specs.StampParts.{StampParts};
ghost use Rattle.pseudo_time.specs.TimeParts.{TimeParts};
ghost use Rattle.pseudo_time.specs.Order.{lt};
ghost use Rattle.value_form.specs.declared.objects.ObjectId.{ObjectId};
ghost use Rattle.value_form.specs.declared.values.Value.{Value};
ghost use Rattle.effect_form.specs.declared.effects.Effect.{Effect};
ghost use Rattle.effect_form.specs.declared.effects.Effect.TheVariants as effect;
ghost use Rattle.object_history.specs.declared.marks.Mark.{Mark};
ghost use Rattle.object_history.specs.declared.marks.Mark.TheVariants as mark;
ghost use Rattle.object_history.specs.History.{settle_of, floor_of, scan};
ghost use Rattle.object_history.specs.Views.{Distinct, Fits, Firm, views, value_of, Viewed};
ghost use Rattle.object_retirement.specs.Retired.{retired, MayRetire, NoneOwn, Same};
ghost use Rattle.object_retirement.specs.Older.{GivenUp};
ghost use Rattle.object_retirement.specs.Chains.{Chain, AllOf, SomeOf, WasViewed};
ghost use Rattle.object_retirement.specs.Stood.{all_stood};
ghost use Rattle.object_retirement.specs.Forward.{forwarded};
ghost use Rattle.repository_log.specs.Logs.{marks, record_of};

/// A retirement leaves attempts decided as they were, versions of an object with different starts, and
/// the mark as the floor; and what a reader at or above the mark viewed it views still.
pub fn retirement_keeps_views()
    ensures settled { (m : List Mark) (at : TimeParts) (s : StampParts) → settle_of (retired m at) s ≡ settle_of m s }
    ensures floor { (m : List Mark) (at : TimeParts) → floor_of (retired m at) ≡ Some at }
    ensures distinct { (m : List Mark) (at : TimeParts) → Distinct m → Distinct (retired m at) }
    ensures viewed { (m : List Mark) (at : TimeParts) → MayRetire m at → Distinct m →
        (o : ObjectId) (t : TimeParts) (v : Value) → lt t at ≡ false →
        NoneOwn m o at t → Viewed m o t v → Viewed (retired m at) o t v }
{}

/// A version that a retirement gave up was dead, or a committed version stands between it and the
/// floor; and so it stays, whatever fitting mark is added and whatever retirement follows.
pub fn retirement_gives_up()
    ensures retired { (m : List Mark) (at : TimeParts) → MayRetire m at → Distinct m → GivenUp (retired m at) m }
    ensures fits { (m old : List Mark) (f : Mark) → Fits m f → GivenUp m old → GivenUp (f ∷ m) old }
    ensures again { (m old : List Mark) (at : TimeParts) → MayRetire m at → Distinct m → GivenUp m old →
        GivenUp (retired m at) old }
{}

/// What a reader was answered once, in this history or in an older one of its chain, is what it sees
/// over all versions that ever stood; and the last committed version of an object is the same over
/// these as here.
pub fn answers_last()
    ensures viewed { (olds : List (List Mark)) (m all : List Mark) (o : ObjectId) (t : TimeParts) (v : Value) →
        Chain olds m → AllOf olds m all o →
        WasViewed (m ∷ olds) o t v → (value_of (views all o t) ≡ v) × Firm all t (views all o t) }
    ensures newest { (olds : List (List Mark)) (m all : List Mark) (o : ObjectId) → Chain olds m → AllOf olds m all o →
        (sure : StampParts → Bool) →
        ((s : StampParts) → settle_of m s ≡ Some false → sure s ≡ false) →
        ((s : StampParts) → settle_of m s ≡ Some true → sure s ≡ true) →
        Same (scan (λ x. sure x.stamp) o m) (scan (λ x. sure x.stamp) o all) }
{}

/// The versions of the older histories, each object and start once, with the marks of the last one are all
/// that ever stood, where no two versions of the object differ in value alone and no step is 0.
pub fn all_that_stood()
    ensures { (olds : List (List Mark)) (m : List Mark) (o : ObjectId) → Chain olds m →
        ((x : TimeParts) (v w : Value) → SomeOf (λ l. Has (mark.Put o x v) l) (m ∷ olds) →
        SomeOf (λ l. Has (mark.Put o x w) l) (m ∷ olds) → v ≡ w) →
        ((x : TimeParts) (v : Value) → SomeOf (λ l. Has (mark.Put o x v) l) (m ∷ olds) → 1 ≤ x.step) →
        AllOf olds m (all_stood olds m) o }
{}

/// Nothing is put below the floor.
pub fn nothing_is_put_below()
    ensures { (m : List Mark) (o : ObjectId) (x : TimeParts) (v : Value) → Fits m (mark.Put o x v) → (e : TimeParts) →
        floor_of m ≡ Some e → lt x e ≡ false }
{}

/// A log that is carried forward has the retired history. Each commit record is as it was, each decision
/// stands, and nothing is new but the mark and the Whole.
pub fn forward_keeps_records()
    ensures history { (l : List Effect) (at : TimeParts) → marks (forwarded l at) ≡ retired (marks l) at }
    ensures records { (l : List Effect) (at : TimeParts) (s : StampParts) →
        record_of (forwarded l at) s ≡ record_of l s }
    ensures decided { (l : List Effect) (at : TimeParts) (s : StampParts) (d : Decision) → Has (effect.Decide s d) l →
        Has (effect.Decide s d) (forwarded l at) }
    ensures old { (l : List Effect) (at : TimeParts) (f : Effect) → Has f (forwarded l at) →
        (f ≡ effect.Whole) ⊎ ((f ≡ effect.Mark at) ⊎ Has f l) }
{}
