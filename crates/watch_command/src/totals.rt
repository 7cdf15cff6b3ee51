//! The totals that come of a repository's marks.
ghost use Rattle.std.specs.Prelude.{◌≡◌, ◌⊎◌, None, Ok, IfOk, IfErr, reverse};
ghost use Rattle.value_form.specs.declared.objects.ObjectId.{ObjectId};
ghost use Rattle.commit_watch.specs.declared.faults.WatchFault.TheVariants as fault;
ghost use Rattle.commit_watch.specs.Folds.{advanced};
ghost use Rattle.commit_watch.specs.Lists.{AreRising, moved_at};
ghost use Rattle.commit_watch.specs.Refusals.{IsRefusal};
ghost use Rattle.archive_command.specs.Archives.{last_total};
ghost use Rattle.watch_command.specs.Totals.{AreCursors, AreTotals, outcome_of};

use crate::restoring::{Cursors, restore_all};
use command_words::Rule;
use commit_watch::{
    Callback, Count, Last, Moved, Sum, Version, WatchFault, WatchRule, Watches, count_next,
    last_next, sum_next,
};
use effect_form::Effect;
use object_history::Mark;
use std::alloc::Global;

/// Totals, and how far each object was folded in the log that they go on from.
#[derive(Drop)]
pub struct Totals {
    pub list: Vec<Moved<i64>>,
    pub cursors: Cursors,
}

// The totals that come of the marks by a stored callback.
fn folded_by<R: WatchRule<Total = i64>, F: Callback<R> + Drop>(
    alloc: Global,
    call: F,
    marks: &[Mark],
    log: &[Effect],
) -> Result<Totals, WatchFault>
    requires follows { F.follows call }
    ensures each { IfOk result (λ t. (o : ObjectId) →
        advanced R.first R.next o (reverse marks.now) None (last_total log.now o) ≡ Ok (moved_at o t.list.items)) }
    ensures rising { IfOk result (λ t. AreRising t.list.items) }
    ensures cursors { IfOk result (λ t. AreCursors (last_total log.now) t.cursors.entries) }
    ensures refused { IfErr result (λ e. (e ≡ fault.NoMemory)
        ⊎ IsRefusal (λ o. advanced R.first R.next o (reverse marks.now) None (last_total log.now o)) e) }
{
    let mut watches = Watches::<R, F>::new(alloc, call);
    let cursors = restore_all::<R, F>(alloc, &mut watches, log)?;
    match watches.advance(marks, None) {
        Ok(()) => Ok(Totals {
            list: watches.into_list(),
            cursors,
        }),
        Err(fault) => Err(fault),
    }
}

/// The totals that come of the marks by the rule, where the log has what they were.
pub fn totals_of(
    alloc: Global,
    rule: Rule,
    marks: &[Mark],
    log: &[Effect],
) -> Result<Totals, WatchFault>
    ensures totals { IfOk result (λ t. AreTotals rule (reverse marks.now) log.now t.list.items) }
    ensures cursors { IfOk result (λ t. AreCursors (last_total log.now) t.cursors.entries) }
    ensures refused { IfErr result (λ e. (e ≡ fault.NoMemory) ⊎
        IsRefusal (outcome_of rule (reverse marks.now) log.now) e) }
{
    match rule {
        Rule::Count => folded_by::<Count, _>(
            alloc,
            |total: &i64, version: &Version| Ok(count_next(total, version)),
            marks,
            log,
        ),
        Rule::Sum => folded_by::<Sum, _>(
            alloc,
            |total: &i64, version: &Version| Ok(sum_next(total, version)),
            marks,
            log,
        ),
        Rule::Last => folded_by::<Last, _>(
            alloc,
            |total: &i64, version: &Version| Ok(last_next(total, version)),
            marks,
            log,
        ),
    }
}
