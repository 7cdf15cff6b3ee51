//! Which volume holds a version.
ghost use Rattle.std.specs.Prelude.{◌≡◌, ◌∷◌, [], List, Bool, ◌≤◌, length, map, not};
ghost use Rattle.object_history.specs.declared.marks.Mark.{Mark};
ghost use Rattle.archive_store.specs.Joined.{has_start, holder_of};

use object_history::Mark;
use pseudo_time::PseudoTime;
use value_form::ObjectId;

// Whether the mark is a put of the object with this start.
#[tactic(auto, unfolding(crate::specs::Joined::has_start))]
fn is_put(mark: &Mark, object: ObjectId, start: PseudoTime) -> bool
    ensures { result ≡ has_start object start (mark.now ∷ []) }
{
    match mark {
        Mark::Put(own, at, _) => *own == object && *at == start,
        Mark::Stretch(_, _) => false,
        Mark::Settle(_, _) => false,
        Mark::Floor(_) => false,
    }
}

// Whether the log has a put of the object with this start.
fn has_put(log: &[Mark], object: ObjectId, start: PseudoTime) -> bool
    ensures { result ≡ has_start object start log.now }
{
    for mark in log {
        if is_put(mark, object, start) {
            return true;
        }
    }
    false
}

/// The place of the last log that has a put of the object with this start.
pub fn holder_among(logs: &[Vec<Mark>], object: ObjectId, start: PseudoTime) -> Option<u32>
    requires { length logs.now ≤ 4294967295 }
    ensures { result ≡ holder_of object start (map (λ log. log.items) logs.now) }
{
    let mut place = logs.len();
    while place > 0 {
        place -= 1;
        if has_put(logs[place].as_slice(), object, start) {
            return Some(place as u32);
        }
    }
    None
}
