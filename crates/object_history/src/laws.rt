//! Laws of an object's history.
// Each law holds for every list of marks, newest first.
ghost use Rattle.std.specs.Prelude.{◌≡◌, ◌≢◌, ◌⊎◌, Bool, true, false, List, ◌∷◌, ◌++◌, Option, Some, None};
ghost use Rattle.pseudo_time.specs.StampParts.{StampParts};
ghost use Rattle.pseudo_time.specs.TimeParts.{TimeParts};
ghost use Rattle.pseudo_time.specs.Lists.{Has};
ghost use Rattle.pseudo_time.specs.Order.{lt};
ghost use Rattle.value_form.specs.declared.objects.ObjectId.{ObjectId};
ghost use Rattle.value_form.specs.declared.values.Value.{Value};
ghost use Rattle.object_history.specs.declared.marks.Mark.{Mark};
ghost use Rattle.object_history.specs.declared.marks.Mark.TheVariants as mark;
ghost use Rattle.object_history.specs.declared.steps.ReadStep.TheVariants as read;
ghost use Rattle.object_history.specs.declared.steps.WriteStep.TheVariants as write;
ghost use Rattle.object_history.specs.History.{Seen, settle_of, alive, sees, newest, reach};
ghost use Rattle.object_history.specs.Answers.{read_step, after_read, write_step};
ghost use Rattle.object_history.specs.Views.{views, Starts, IsVersion, Distinct, Covers, IsOnFloor, Viewed, Fits, Grown};
ghost use Rattle.object_history.specs.Settled.{settled_versions, Adds};

/// What is decided stays decided, and as it was.
pub fn settled_stays()
    ensures { (m : List Mark) (f : Mark) (s : StampParts) (c : Bool) → settle_of m s ≡ Some c →
        settle_of (f ∷ m) s ≡ Some c }
{}

/// A reach only rises: what it covers stays covered, whatever mark is added.
pub fn reach_rises()
    ensures { (m : List Mark) (f : Mark) (o : ObjectId) (r : Option Seen) (t : TimeParts) → Covers (reach m o r) t →
        Covers (reach (f ∷ m) o r) t }
{}

/// Versions of an object that have different starts keep different starts, and then a start tells
/// the version.
pub fn starts_stay_distinct()
    ensures kept { (m : List Mark) (f : Mark) → Fits m f → Distinct m → Distinct (f ∷ m) }
    ensures one { (o : ObjectId) (m : List Mark) (p q : Seen) → Distinct m → IsVersion o m p → IsVersion o m q →
        p.start ≡ q.start → p ≡ q }
{}

/// An accepted write lies above every version that isn't dead, and not below the reach of the last
/// one. Where every mark fitted those before it, it isn't below the reach of any version that isn't
/// dead, nor of the origin.
pub fn writes_go_on_top()
    ensures versions { (m : List Mark) (o : ObjectId) (x : TimeParts) (v : Value) → write_step m o x v ≡ write.Put →
        Starts (λ y. alive m y ≡ true → lt y x ≡ true) o m }
    ensures reach { (m : List Mark) (o : ObjectId) (x : TimeParts) (v : Value) (e : TimeParts) →
        write_step m o x v ≡ write.Put →
        reach m o (newest m o) ≡ Some e → lt x e ≡ false }
    ensures every_reach { (m : List Mark) (o : ObjectId) (x : TimeParts) (v : Value) (q : Seen) (e : TimeParts) →
        Grown m → write_step m o x v ≡ write.Put →
        IsVersion o m q → alive m q.start ≡ true → reach m o (Some q) ≡ Some e → lt x e ≡ false }
    ensures origin { (m : List Mark) (o : ObjectId) (x : TimeParts) (v : Value) (e : TimeParts) → Grown m →
        write_step m o x v ≡ write.Put →
        reach m o None ≡ Some e → lt x e ≡ false }
{}

/// What an answered read viewed, no fitting mark changes.
pub fn answer_stays()
    ensures { (m : List Mark) (f : Mark) (o : ObjectId) (t : TimeParts) (v : Value) → Fits m f → Viewed m o t v →
        Viewed (f ∷ m) o t v }
{}

/// A read that is answered is viewed, with its Stretch.
pub fn answer_is_viewed()
    ensures { (m : List Mark) (o : ObjectId) (t : TimeParts) (v : Value) (stretch : Bool) →
        settle_of m t.stamp ≢ Some false →
        read_step m o t ≡ read.Answer v stretch → Viewed (after_read m o t (read.Answer v stretch)) o t v }
{}

/// A read is refused below the floor alone, with the floor, and one that is answered isn't below it.
pub fn floor_refuses_reads()
    ensures refused { (m : List Mark) (o : ObjectId) (t e : TimeParts) → read_step m o t ≡ read.LaterRead e →
        (lt t e ≡ true) × Has (mark.Floor e) m }
    ensures answered { (m : List Mark) (o : ObjectId) (t : TimeParts) (v : Value) (stretch : Bool) →
        read_step m o t ≡ read.Answer v stretch → IsOnFloor m t }
{}

/// What a reader views is what a read sees, unless its attempt was aborted.
pub fn view_is_sight()
    ensures { (m : List Mark) (o : ObjectId) (t : TimeParts) → alive m t ≡ true → sees m o t ≡ views m o t }
{}

/// What the answers of a write say of the marks.
pub fn write_answers()
    ensures again { (m : List Mark) (o : ObjectId) (t : TimeParts) (v : Value) → write_step m o t v ≡ write.Again →
        Has (mark.Put o t v) m }
    ensures later_read { (m : List Mark) (o : ObjectId) (t : TimeParts) (v : Value) (e : TimeParts) →
        write_step m o t v ≡ write.LaterRead e →
        (lt t e ≡ true) × (Has (mark.Stretch o e) m ⊎ Has (mark.Floor e) m) }
    ensures later_version { (m : List Mark) (o : ObjectId) (t : TimeParts) (v : Value) (x : TimeParts) →
        write_step m o t v ≡ write.LaterVersion x →
        (lt x t ≡ false) × ((w : Value) × Has (mark.Put o x w) m) }
{}

/// Each call of histories leaves the stable versions of an object a prefix of the new ones.
pub fn settled_versions_only_grow()
    ensures { (m : List Mark) (f : Mark) (o : ObjectId) → Adds m f →
        (extra : List Seen) × (settled_versions (f ∷ m) o ≡ settled_versions m o ++ extra) }
{}
