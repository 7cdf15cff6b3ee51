//! What a crash leaves of a log, and what its pages hold.
ghost use Rattle.std.specs.Prelude.{◌≡◌, ◌+◌, ◌*◌, ◌++◌, [], ◌∷◌, ℕ, ◌<◌, ◌≤◌, List, IfSome, Ok, Some, length, take};
ghost use Rattle.medium_port.specs.Image.{Image, IsImage};
ghost use Rattle.page_form.specs.ObjectId.{ObjectId};
ghost use Rattle.page_form.specs.Effect.{Effect};
ghost use Rattle.page_form.specs.Place.{Place};
ghost use Rattle.page_form.specs.Entries.{Entry, IsBefore, IsIn, Log, back_in, last_put};
ghost use Rattle.version_store.specs.Fetch.{BackStands, IsLastPut};
ghost use Rattle.version_store.specs.Filling.{HasPrefix, KeepsPages, StaysClean, joined, pages_apart};
ghost use Rattle.page_form.specs.Filling.{filling};
ghost use Rattle.page_form.specs.Effects.{AreEffects, size_of};
ghost use Rattle.version_store.specs.Storage.{log_of, storage};

/// A law: what is read of an image that a crash of an append left is the log with a prefix of the
/// call's effects, and how many these are is the number of effects read less those of the log.
pub fn prefix_is_found()
    ensures found { (log effects found : List Effect) (image : Image) → storage image ≡ Ok found →
        (has : HasPrefix log effects image) →
        found ≡ log ++ take has.kept effects }
    ensures kept { (log effects found : List Effect) (image : Image) → storage image ≡ Ok found →
        (has : HasPrefix log effects image) →
        length log + has.kept ≡ length found }
{}

/// A law: in the log of an image the back place of an effect is the place of its object's last Put
/// before it, and comes before its own place, which is on a page of the image.
pub fn back_places_come_before()
    ensures back { (n : ℕ) (image : Image) (e : Entry) (i : ℕ) → IsImage n image → IsIn (log_of image) e i →
        e.back ≡ back_in (take i (log_of image)) e.effect }
    ensures before { (n : ℕ) (image : Image) (e : Entry) (i : ℕ) → IsImage n image → IsIn (log_of image) e i →
        IfSome e.back (λ (b : Place). IsBefore b e.place) }
    ensures within { (n : ℕ) (image : Image) (e : Entry) (i : ℕ) → IsImage n image → IsIn (log_of image) e i →
        e.place.page < n }
{}

/// A law: the pages that effects fill have them all, in order.
pub fn pages_keep_the_order()
    ensures { (effects : List Effect) → joined (filling effects) ≡ effects }
{}

/// A law: at the last place of an object stands its last Put. At the back place of an effect in the
/// log of an image stands a Put of its object, too.
pub fn places_have_effects()
    ensures last { (log : Log) (object : ObjectId) (place : Place) → last_put log object ≡ Some place →
        IsLastPut log object place }
    ensures back { (n : ℕ) (image : Image) (e : Entry) (i : ℕ) → IsImage n image → IsIn (log_of image) e i →
        BackStands (log_of image) (e.effect, e.back) }
{}

/// A law: effects fill no more pages than each of them alone, which are at most seventeen, and one for
/// an effect that is no longer than a page.
pub fn effects_fill_few_pages()
    ensures apart { (effects : List Effect) → length (filling effects) ≤ pages_apart effects }
    ensures most { (effects : List Effect) → AreEffects effects → length (filling effects) ≤ 17 * length effects }
    ensures one { (effect : Effect) → size_of effect ≤ 4091 → length (filling (effect ∷ [])) ≡ 1 }
{}

/// A law: where pages that weren't blank are kept and no blank one is spoiled, by one run of pages and
/// then by another, so it is by both. So it goes on over the appends of a run.
pub fn pages_stay_clean()
    ensures clean { (a b c : Image) → StaysClean a b → KeepsPages b c → StaysClean b c → StaysClean a c }
    ensures kept { (a b c : Image) → KeepsPages a b → KeepsPages b c → KeepsPages a c }
{}
