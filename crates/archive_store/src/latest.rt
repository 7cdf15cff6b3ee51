//! The greatest version of each object below a pseudotime.
ghost use Rattle.std.specs.Prelude.{◌≡◌, true, false, None, IfOk, IfErr, reverse};
ghost use Rattle.value_form.specs.declared.objects.ObjectId.{ObjectId};
ghost use Rattle.object_history.specs.History.{floor_of};
ghost use Rattle.commit_watch.specs.Lists.{moved_at, AreRising};
ghost use Rattle.archive_store.specs.declared.faults.AsOfFault.TheVariants as faults;
ghost use Rattle.archive_store.specs.Latest.{last_below, entry_of, is_open, is_wanting};

use crate::faults::AsOfFault;
use commit_watch::{Callback, Latest, Moved, Version, WatchFault, Watches};
use object_history::Mark;
use pseudo_time::PseudoTime;
use std::alloc::{AllocError, Global};
use value_form::Value;

// Of a watch over this rule nothing else comes.
fn memory_fault(fault: WatchFault) -> AsOfFault
    requires { is_wanting fault ≡ true }
    ensures { result ≡ faults.NoMemory }
{
    match fault {
        WatchFault::NoMemory => AsOfFault::NoMemory,
        _ => unreachable!(),
    }
}

// The map as of the pseudotime by these marks, below which nothing is undecided, over a stored callback.
fn folded_by<F: Callback<Latest> + Drop>(
    alloc: Global,
    call: F,
    marks: &[Mark],
    at: PseudoTime,
) -> Result<Vec<Moved<Value>>, AsOfFault>
    requires follows { F.follows call }
    requires unretired { floor_of (reverse marks.now) ≡ None }
    requires closed { (o : ObjectId) → is_open (reverse marks.now) o at (λ x. true) ≡ false }
    ensures ok { IfOk result (λ list. (o : ObjectId) →
        moved_at o list.items ≡ entry_of o (last_below (reverse marks.now) o at)) }
    ensures rising { IfOk result (λ list. AreRising list.items) }
    ensures err { IfErr result (λ e. e ≡ faults.NoMemory) }
{
    let mut watches = Watches::<Latest, F>::new(alloc, call);
    match watches.advance(marks, Some(at)) {
        Ok(()) => Ok(watches.into_list()),
        Err(fault) => Err(memory_fault(fault)),
    }
}

/// The map as of the pseudotime by these marks, below which nothing is undecided.
pub fn latest_of(
    alloc: Global,
    marks: &[Mark],
    at: PseudoTime,
) -> Result<Vec<Moved<Value>>, AsOfFault>
    requires unretired { floor_of (reverse marks.now) ≡ None }
    requires closed { (o : ObjectId) → is_open (reverse marks.now) o at (λ x. true) ≡ false }
    ensures ok { IfOk result (λ list. (o : ObjectId) →
        moved_at o list.items ≡ entry_of o (last_below (reverse marks.now) o at)) }
    ensures rising { IfOk result (λ list. AreRising list.items) }
    ensures err { IfErr result (λ e. e ≡ faults.NoMemory) }
{
    folded_by(
        alloc,
        |_total: &Value, version: &Version| {
            let value = version.value.copy(alloc)?;
            Ok(Some(value))
        },
        marks,
        at,
    )
}
