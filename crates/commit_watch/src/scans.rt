//! One pass over the marks: decisions, floor and versions.
ghost use Rattle.std.specs.Prelude.{◌≡◌, ◌∷◌, List, IfOk, OnOk, reverse, if◌then◌else◌};
ghost use Rattle.std.specs.FinMap as finite;
ghost use Rattle.pseudo_time.specs.StampParts.{StampParts};
ghost use Rattle.value_form.specs.declared.objects.ObjectId.{ObjectId};
ghost use Rattle.object_history.specs.declared.marks.Mark.{Mark};
ghost use Rattle.object_history.specs.Objects.{same_object};
ghost use Rattle.object_history.specs.History.{settle_of, floor_of};
ghost use Rattle.commit_watch.specs.Lists.{AreRising, moved_at, cursor_of};
ghost use Rattle.commit_watch.specs.Standings as spec;

use crate::lists::entry_of;
use crate::moved::Moved;
use crate::puts::Put;
use crate::standings::Standing;
use crate::times::{is_below, is_past, is_under};
use object_history::{Mark, Settles, later};
use pseudo_time::PseudoTime;
use std::alloc::{AllocError, Global};
use std::collections::BTreeMap;
use value_form::{ObjectId, Value};

// Reads how a stamp was decided. The first time counts.
#[tactic(auto, unfolding(object_history::specs::History::settle_of))]
fn read_settle(settles: &mut Settles, mark: &Mark) -> Result<(), AllocError>
    ensures { (m : List Mark) → ((p : StampParts) → finite.get settles.old p ≡ settle_of m p) →
        OnOk result ((p : StampParts) → finite.get settles.new p ≡ settle_of (mark.now ∷ m) p) }
{
    match mark {
        Mark::Settle(stamp, committed) => {
            if settles.get(*stamp).is_some() {
                return Ok(());
            }
            settles.put(*stamp, *committed)
        }
        Mark::Put(_, _, _) => Ok(()),
        Mark::Stretch(_, _) => Ok(()),
        Mark::Floor(_) => Ok(()),
    }
}

/// How the stamps among these marks were decided.
pub fn settles_of(alloc: Global, marks: &[Mark]) -> Result<Settles, AllocError>
    ensures { IfOk result (λ s. (p : StampParts) → finite.get s p ≡ settle_of (reverse marks.now) p) }
{
    let mut settles = Settles::new(alloc);
    for mark in marks {
        read_settle(&mut settles, mark)?;
    }
    Ok(settles)
}

// The greatest floor, with one mark more.
#[tactic(auto, unfolding(object_history::specs::History::floor_of))]
fn with_mark(floor: Option<PseudoTime>, mark: &Mark) -> Option<PseudoTime>
    ensures { (m : List Mark) → floor ≡ floor_of m → result ≡ floor_of (mark.now ∷ m) }
{
    match mark {
        Mark::Floor(at) => Some(later(*at, &floor)),
        Mark::Put(_, _, _) => floor,
        Mark::Stretch(_, _) => floor,
        Mark::Settle(_, _) => floor,
    }
}

/// The greatest floor among these marks.
#[tactic(auto, unfolding(object_history::specs::History::floor_of))]
pub fn floor_among(marks: &[Mark]) -> Option<PseudoTime>
    ensures { result ≡ floor_of (reverse marks.now) }
{
    let mut floor = None;
    for mark in marks {
        floor = with_mark(floor, mark);
    }
    floor
}

/// What is asked of each put.
#[derive(Drop)]
pub struct Scan {
    pub settles: Settles,
    pub floor: Option<PseudoTime>,
    pub below: Option<PseudoTime>,
}

impl Scan {
    // What a watch has to know of a put, where the object was folded up to the cursor.
    fn put_of(&self, cursor: &Option<PseudoTime>, object: ObjectId, start: PseudoTime) -> Put
        ensures { result ≡ record {
          object = object;
          start = start;
          settled = finite.get self.now.settles start.stamp;
          is_wanted = spec.is_wanted cursor.now self.now.below start;
          is_lost = spec.is_lost self.now.floor cursor.now start;
        } }
    {
        Put {
            object,
            start,
            settled: self.settles.get(start.stamp()),
            is_wanted: is_past(cursor, start) && is_below(&self.below, start),
            is_lost: is_under(&self.floor, start) && is_past(cursor, start),
        }
    }
}

// Adds a put to how its object stands.
fn add_put(
    standings: &mut BTreeMap<ObjectId, Standing>,
    alloc: Global,
    put: &Put,
    value: &Value,
) -> Result<(), AllocError>
    ensures { OnOk result ((o : ObjectId) →
        spec.standing_at standings.new o ≡ (if same_object put.now.object o then spec.with_version put.now value.now
        (spec.standing_at standings.old o) else spec.standing_at standings.old o)) }
{
    match standings.get_mut(&put.object) {
        Some(standing) => standing.add(alloc, put, value),
        None => {
            let mut standing = Standing::new(alloc);
            standing.add(alloc, put, value)?;
            standings.insert(put.object, standing)?;
            Ok(())
        }
    }
}

/// How far the object was folded.
pub fn cursor_in<T: Drop>(moved: &[Moved<T>], object: ObjectId) -> Option<PseudoTime>
    requires { AreRising moved.now }
    ensures { result ≡ cursor_of (moved_at object moved.now) }
{
    match entry_of(moved, object) {
        Some(entry) => Some(entry.cursor),
        None => None,
    }
}

// Reads a mark.
#[tactic(auto, unfolding(crate::specs::Standings::standing_of))]
fn read_mark<T: Drop>(
    standings: &mut BTreeMap<ObjectId, Standing>,
    alloc: Global,
    mark: &Mark,
    moved: &[Moved<T>],
    scan: &Scan,
) -> Result<(), AllocError>
    requires { AreRising moved.now }
    ensures { (m : List Mark) → ((o : ObjectId) →
        spec.standing_at standings.old o ≡ spec.standing_of (spec.terms_in scan.now moved.now) o m) →
        OnOk result ((o : ObjectId) → spec.standing_at standings.new o ≡ spec.standing_of
        (spec.terms_in scan.now moved.now) o (mark.now ∷ m)) }
{
    match mark {
        Mark::Put(object, start, value) => {
            let cursor = cursor_in(moved, *object);
            let put = scan.put_of(&cursor, *object, *start);
            add_put(standings, alloc, &put, value)
        }
        Mark::Stretch(_, _) => Ok(()),
        Mark::Settle(_, _) => Ok(()),
        Mark::Floor(_) => Ok(()),
    }
}

/// How the versions of each object among these marks stand.
#[tactic(auto, unfolding(crate::specs::Standings::standing_of))]
pub fn standings_of<T: Drop>(
    alloc: Global,
    marks: &[Mark],
    moved: &[Moved<T>],
    scan: &Scan,
) -> Result<BTreeMap<ObjectId, Standing>, AllocError>
    requires { AreRising moved.now }
    ensures { IfOk result (λ s. (o : ObjectId) →
        spec.standing_at s o ≡ spec.standing_of (spec.terms_in scan.now moved.now) o (reverse marks.now)) }
{
    let mut standings = BTreeMap::new(alloc);
    for mark in marks {
        read_mark(&mut standings, alloc, mark, moved, scan)?;
    }
    Ok(standings)
}
