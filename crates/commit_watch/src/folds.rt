//! The total of an object, folded over its new versions.
ghost use Rattle.std.specs.Prelude.{◌≡◌, ◌⊎◌, Some, None, Ok, Err, Result, IfOk, IfErr, IfSome};
ghost use Rattle.std.specs.Option.{option_copied};
ghost use Rattle.commit_watch.specs.declared.faults.WatchFault.TheVariants as fault;
ghost use Rattle.commit_watch.specs.Folds.{moved_over};
ghost use Rattle.commit_watch.specs.Lists.{total_of, or_before};
ghost use Rattle.commit_watch.specs.Standings.{settled_in, stood};

use crate::callbacks::{Callback, WatchRule};
use crate::faults::WatchFault;
use crate::moved::Moved;
use crate::standings::Standing;
use crate::times::is_stopped;
use crate::versions::Version;
use pseudo_time::PseudoTime;
use std::alloc::{AllocError, Global};
use value_form::ObjectId;

// The total after one version more: over the last one, or that of the entry, or the first.
fn next_total<R: WatchRule, F: Callback<R>>(
    alloc: Global,
    call: &F,
    entry: Option<&Moved<R::Total>>,
    last: &Option<Moved<R::Total>>,
    version: &Version,
) -> Result<Option<R::Total>, AllocError>
    requires { F.follows call.now }
    ensures { IfOk result (λ t. t ≡ R.next (total_of R.first (or_before last.now (option_copied entry.entry)))
        version.now) }
{
    if let Some(moved) = last {
        return call.next(&moved.total, version);
    }
    if let Some(moved) = entry {
        return call.next(&moved.total, version);
    }
    let first = R::begin(alloc)?;
    call.next(&first, version)
}

// What became of the object by its stable versions. None where it has none.
fn fold<R: WatchRule, F: Callback<R>>(
    alloc: Global,
    call: &F,
    object: ObjectId,
    standing: &Standing,
    entry: Option<&Moved<R::Total>>,
) -> Result<Option<Moved<R::Total>>, WatchFault>
    requires { F.follows call.now }
    ensures ok { IfOk result (λ last. moved_over R.first R.next object (option_copied entry.entry)
        (settled_in standing.now) ≡ Ok (or_before last (option_copied entry.entry))) }
    ensures object { IfOk result (λ last. IfSome last (λ w. w.object ≡ object)) }
    ensures err { IfErr result (λ e. (e ≡ fault.NoMemory) ⊎
        (moved_over R.first R.next object (option_copied entry.entry) (settled_in standing.now) ≡ Err e)) }
{
    let undecided = standing.undecided();
    let mut last: Option<Moved<R::Total>> = None;
    for version in standing.versions() {
        if !is_stopped(&undecided, version.start) {
            let Some(total) = next_total::<R, F>(alloc, call, entry, &last, version)? else {
                return Err(WatchFault::Overflow {
                    object,
                    start: version.start,
                });
            };
            last = Some(Moved {
                object,
                cursor: version.start,
                total,
            });
        }
    }
    Ok(last)
}

/// What became of the object. None where it stays as it was.
pub fn change_of<R: WatchRule, F: Callback<R>>(
    alloc: Global,
    call: &F,
    floor: &Option<PseudoTime>,
    object: ObjectId,
    standing: &Standing,
    entry: Option<&Moved<R::Total>>,
) -> Result<Option<Moved<R::Total>>, WatchFault>
    requires { F.follows call.now }
    ensures ok { IfOk result (λ last. stood R.first R.next floor.now object standing.now (option_copied entry.entry) ≡
        Ok (or_before last (option_copied entry.entry))) }
    ensures object { IfOk result (λ last. IfSome last (λ w. w.object ≡ object)) }
    ensures err { IfErr result (λ e. (e ≡ fault.NoMemory) ⊎
        (stood R.first R.next floor.now object standing.now (option_copied entry.entry) ≡ Err e)) }
{
    if standing.is_retired() {
        if let Some(floor) = floor {
            return Err(WatchFault::Retired {
                object,
                floor: *floor,
            });
        }
    }
    fold::<R, F>(alloc, call, object, standing, entry)
}
