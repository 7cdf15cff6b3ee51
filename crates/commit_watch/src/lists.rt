//! Lists of objects in rising order.
ghost use Rattle.std.specs.Prelude.{◌≡◌, ◌<◌, ◌≤◌, ◌+◌, length, true, false, slice_index_or};
ghost use Rattle.std.specs.Option.{option_copied};
ghost use Rattle.std.specs.List.{AllWithin};
ghost use Rattle.std.specs.Vec.{vec_len, vec_capacity};
ghost use Rattle.object_history.specs.Objects.{same_object};
ghost use Rattle.commit_watch.specs.declared.moved.Moved.{Moved};
ghost use Rattle.commit_watch.specs.Lists.{object_lt, moved_at, with_moved, AreRising};

use crate::moved::Moved;
use value_form::ObjectId;

// The place behind those of lesser objects.
fn place_of<T: Drop>(moved: &[Moved<T>], object: ObjectId) -> usize
    requires { AreRising moved.now }
    ensures within { result ≤ length moved.now }
    ensures front { AllWithin (λ w. object_lt w.object object ≡ true) moved.now 0 result }
    ensures back { AllWithin (λ w. object_lt w.object object ≡ false) moved.now result (length moved.now) }
{
    moved.partition_point(|moved| moved.object < object)
}

// Whether the object stands at this place.
fn is_at<T: Drop>(moved: &[Moved<T>], place: usize, object: ObjectId) -> bool
    ensures found { result ≡ true → (place < length moved.now) ×
        ((d : Moved T) → same_object (slice_index_or moved.now place d).object object ≡ true) }
    ensures other { result ≡ false → (d : Moved T) → place < length moved.now →
        same_object (slice_index_or moved.now place d).object object ≡ false }
{
    if place >= moved.len() {
        return false;
    }
    moved[place].object == object
}

/// What a rising list has of the object.
pub fn entry_of<T: Drop>(moved: &[Moved<T>], object: ObjectId) -> Option<&Moved<T>>
    requires { AreRising moved.now }
    ensures { option_copied result ≡ moved_at object moved.now }
{
    let place = place_of(moved, object);
    if is_at(moved, place, object) {
        Some(&moved[place])
    } else {
        None
    }
}

/// Puts what became of an object into a rising list, which has room for it.
pub fn put<T: Drop>(moved: &mut Vec<Moved<T>>, change: Moved<T>)
    requires rising { AreRising moved.old.items }
    requires room { vec_len moved.old < vec_capacity moved.old }
    ensures items { moved.new.items ≡ with_moved change moved.old.items }
    ensures grown { vec_len moved.new ≤ vec_len moved.old + 1 }
    ensures capacity { vec_capacity moved.old ≤ vec_capacity moved.new }
{
    let place = place_of(moved.as_slice(), change.object);
    if is_at(moved.as_slice(), place, change.object) {
        moved[place] = change;
    } else {
        let _ = moved.insert(place, change);
    }
}
