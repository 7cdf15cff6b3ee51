//! A watch: totals that follow the committed versions.
ghost use Rattle.std.specs.Prelude.{◌≡◌, ◌⊎◌, ◌≤◌, ◌+◌, [], Some, None, Ok, Err, Result, OnOk, OnErr, IfOk, IfErr, length, reverse};
ghost use Rattle.std.specs.Vec.{vec_len, vec_capacity};
ghost use Rattle.value_form.specs.declared.objects.ObjectId.{ObjectId};
ghost use Rattle.commit_watch.specs.declared.faults.WatchFault.TheVariants as fault;
ghost use Rattle.commit_watch.specs.Folds.{advanced};
ghost use Rattle.commit_watch.specs.Lists.{moved_at, with_moved, with_all, with_change, AreRising};
ghost use Rattle.commit_watch.specs.Refusals.{IsRefusal};
ghost use Rattle.commit_watch.specs.Standings.{standing_at, stood};

use crate::callbacks::{Callback, WatchRule};
use crate::faults::WatchFault;
use crate::folds::change_of;
use crate::lists::{entry_of, put};
use crate::moved::Moved;
use crate::scans::{Scan, floor_among, settles_of, standings_of};
use crate::standings::Standing;
use object_history::Mark;
use pseudo_time::PseudoTime;
use std::alloc::{AllocError, Global};
use std::collections::{BTreeMap, VecDeque};
use std::marker::Model;
use value_form::ObjectId;

// Adds what became of an object at the end, where it moved.
fn note_change<T: Drop>(
    changes: &mut VecDeque<Moved<T>>,
    change: Option<Moved<T>>,
) -> Result<(), AllocError>
    ensures { OnOk result (changes.new.items ≡ with_change change changes.old.items) }
{
    if let Some(change) = change {
        changes.push_back(change)?;
    }
    Ok(())
}

// What became of the objects, in rising order.
fn changes_of<R: WatchRule, F: Callback<R>>(
    alloc: Global,
    call: &F,
    floor: &Option<PseudoTime>,
    standings: BTreeMap<ObjectId, Standing>,
    moved: &[Moved<R::Total>],
) -> Result<VecDeque<Moved<R::Total>>, WatchFault>
    requires follows { F.follows call.now }
    requires rising { AreRising moved.now }
    ensures ok { IfOk result (λ changes. (o : ObjectId) →
        stood R.first R.next floor.now o (standing_at standings o) (moved_at o moved.now) ≡ Ok
        (moved_at o (with_all changes.items moved.now))) }
    ensures err { IfErr result (λ e. (e ≡ fault.NoMemory) ⊎
        IsRefusal (λ o. stood R.first R.next floor.now o (standing_at standings o) (moved_at o moved.now)) e) }
{
    let mut standings = standings;
    let mut changes = VecDeque::new(alloc);
    while let Some((object, standing)) = standings.pop_first() {
        let entry = entry_of(moved, object);
        match change_of::<R, F>(alloc, call, floor, object, &standing, entry) {
            Ok(change) => note_change(&mut changes, change)?,
            Err(fault) => return Err(fault),
        }
    }
    Ok(changes)
}

// What a watch makes of the objects when it advances over these marks.
fn outcomes_of<R: WatchRule, F: Callback<R>>(
    alloc: Global,
    call: &F,
    marks: &[Mark],
    below: Option<PseudoTime>,
    moved: &[Moved<R::Total>],
) -> Result<VecDeque<Moved<R::Total>>, WatchFault>
    requires follows { F.follows call.now }
    requires rising { AreRising moved.now }
    ensures ok { IfOk result (λ changes. (o : ObjectId) →
        advanced R.first R.next o (reverse marks.now) below (moved_at o moved.now) ≡ Ok
        (moved_at o (with_all changes.items moved.now))) }
    ensures err { IfErr result (λ e. (e ≡ fault.NoMemory) ⊎
        IsRefusal (λ o. advanced R.first R.next o (reverse marks.now) below (moved_at o moved.now)) e) }
{
    let settles = settles_of(alloc, marks)?;
    let floor = floor_among(marks);
    let scan = Scan {
        settles,
        floor,
        below,
    };
    let standings = standings_of(alloc, marks, moved, &scan)?;
    changes_of::<R, F>(alloc, call, &floor, standings, moved)
}

// Puts what became of the objects into a rising list, which has room for it.
fn put_all<T: Drop>(moved: &mut Vec<Moved<T>>, changes: VecDeque<Moved<T>>)
    requires rising { AreRising moved.old.items }
    requires room { vec_len moved.old + length changes.items ≤ vec_capacity moved.old }
    ensures { moved.new.items ≡ with_all changes.items moved.old.items }
{
    let mut changes = changes;
    while let Some(change) = changes.pop_front() {
        put(moved, change);
    }
}

/// Totals over the stable versions of each object, by a rule that a stored callback follows.
/// Contracts see the list of the objects that moved, each once, in rising order.
#[derive(Drop)]
pub struct Watches<R: WatchRule, F: Callback<R> + Drop> {
    call: F,
    moved: Vec<Moved<R::Total>>,
    alloc: Global,
}

impl<R: WatchRule, F: Callback<R> + Drop> Model for Watches<R, F> {
    ghost use Rattle.std.specs.Prelude.{List};
    ghost use Rattle.commit_watch.specs.declared.moved.Moved.{Moved};
    ghost use Rattle.commit_watch.specs.Lists.{AreRising};

    ghost Value = { List (Moved R.Total) };

    ghost view = { λ w. w.moved.items };

    ghost invariant = { λ w. F.follows w.call × AreRising w.moved.items };
}

impl<R: WatchRule, F: Callback<R> + Drop> Watches<R, F> {
    /// No object has moved.
    pub fn new(alloc: Global, call: F) -> Watches<R, F>
        requires { F.follows call }
        ensures { result ≡ [] }
    {
        Watches {
            call,
            moved: Vec::new(alloc),
            alloc,
        }
    }

    /// Adds an object with what it came to. Where memory runs out, all is as before.
    pub fn restore(
        &mut self,
        object: ObjectId,
        cursor: PseudoTime,
        total: R::Total,
    ) -> Result<(), AllocError>
        requires { moved_at object self.old ≡ None }
        ensures ok { OnOk result (self.new ≡ with_moved (record {
          object = object;
          cursor = cursor;
          total = total;
        }) self.old) }
        ensures err { OnErr result (self.new ≡ self.old) }
    {
        self.moved.reserve(1)?;
        put(
            &mut self.moved,
            Moved {
                object,
                cursor,
                total,
            },
        );
        Ok(())
    }

    /// Folds, for each object of the marks, its stable versions above its cursor and below the end,
    /// in rising order. The marks stand oldest first. After a refusal all is as before; it tells of
    /// the least object that is refused.
    pub fn advance(&mut self, marks: &[Mark], below: Option<PseudoTime>) -> Result<(), WatchFault>
        ensures ok { OnOk result ((o : ObjectId) →
            advanced R.first R.next o (reverse marks.now) below (moved_at o self.old) ≡ Ok (moved_at o self.new)) }
        ensures refused { IfErr result (λ e. (e ≡ fault.NoMemory) ⊎
            IsRefusal (λ o. advanced R.first R.next o (reverse marks.now) below (moved_at o self.old)) e) }
        ensures err { OnErr result (self.new ≡ self.old) }
    {
        let outcome = outcomes_of::<R, F>(
            self.alloc,
            &self.call,
            marks,
            below,
            self.moved.as_slice(),
        );
        let changes = match outcome {
            Ok(changes) => changes,
            Err(fault) => return Err(fault),
        };
        self.moved.reserve(changes.len())?;
        put_all(&mut self.moved, changes);
        Ok(())
    }

    /// The objects that moved, in rising order.
    pub fn list(&self) -> &[Moved<R::Total>]
        ensures list { result.now ≡ self.now }
        ensures rising { AreRising self.now }
    {
        self.moved.as_slice()
    }

    /// The objects that moved, in rising order.
    pub fn into_list(self) -> Vec<Moved<R::Total>>
        ensures list { result.items ≡ self }
        ensures rising { AreRising self }
    {
        let Watches {
            call: _,
            moved,
            alloc: _,
        } = self;
        moved
    }
}
