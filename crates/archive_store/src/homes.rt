//! What the archives of several repositories say together.
ghost use Rattle.std.specs.Prelude.{◌≡◌, ◌≤◌, ◌⊎◌, ◌++◌, ◌∷◌, [], Some, None, IfOk, IfErr, OnOk, length, reverse};
ghost use Rattle.value_form.specs.declared.objects.ObjectId.{ObjectId};
ghost use Rattle.object_history.specs.History.{floor_of, settle_of};
ghost use Rattle.commit_watch.specs.Lists.{moved_at, AreRising};
ghost use Rattle.archive_store.specs.declared.faults.AsOfFault.TheVariants as fault;
ghost use Rattle.archive_store.specs.declared.starts.Start.{Start};
ghost use Rattle.archive_store.specs.Homes as spec;
ghost use Rattle.archive_store.specs.Latest.{last_below, entry_of};
ghost use Rattle.archive_store.specs.Opens.{first_open};

use crate::faults::AsOfFault;
use crate::joins::copy_of;
use crate::known::Known;
use crate::latest::latest_of;
use crate::opens;
use commit_watch::Moved;
use object_history::Mark;
use pseudo_time::{PseudoTime, Stamp};
use std::alloc::{AllocError, Global};
use value_form::Value;

// How the attempt was decided, by the archive of its home.
fn at_home(known: &[Known], stamp: Stamp) -> Option<bool>
    ensures { result ≡ spec.at_home known.now stamp }
{
    let home = usize::from(stamp.home());
    if home == 0 {
        return None;
    }
    match known.get(home - 1) {
        Some(archive) => archive.settled(stamp),
        None => None,
    }
}

// What the home says of the attempt, where this archive doesn't know it.
fn home_says(known: &[Known], archive: &Known, stamp: Stamp) -> Option<bool>
    ensures { result ≡ spec.unless_known (settle_of (reverse archive.now) stamp) (spec.at_home known.now stamp) }
{
    match archive.settled(stamp) {
        Some(_) => None,
        None => at_home(known, stamp),
    }
}

// Adds a decision, if there is one.
fn add_decision(
    marks: &mut Vec<Mark>,
    stamp: Stamp,
    decision: Option<bool>,
) -> Result<(), AllocError>
    ensures { OnOk result (marks.new.items ≡ marks.old.items ++ spec.as_mark stamp decision) }
{
    if let Some(committed) = decision {
        marks.push(Mark::Settle(stamp, committed))?;
    }
    Ok(())
}

// Adds what the home says of the attempt of a put, where this archive doesn't know it.
#[tactic(auto, unfolding(crate::specs::Homes::from_homes))]
fn add_told(
    marks: &mut Vec<Mark>,
    known: &[Known],
    archive: &Known,
    mark: &Mark,
) -> Result<(), AllocError>
    ensures { OnOk result (marks.new.items ≡ marks.old.items ++
        spec.from_homes (settle_of (reverse archive.now)) (spec.at_home known.now) (mark.now ∷ [])) }
{
    match mark {
        Mark::Put(_, start, _) => {
            let stamp = start.stamp();
            add_decision(marks, stamp, home_says(known, archive, stamp))
        }
        Mark::Stretch(_, _) => Ok(()),
        Mark::Settle(_, _) => Ok(()),
        Mark::Floor(_) => Ok(()),
    }
}

// Equal marks.
fn copies_of(alloc: Global, marks: &[Mark]) -> Result<Vec<Mark>, AllocError>
    ensures { IfOk result (λ copies. copies.items ≡ marks.now) }
{
    let mut copies = Vec::with_capacity(alloc, marks.len())?;
    for mark in marks {
        copies.push(copy_of(alloc, mark)?)?;
    }
    Ok(copies)
}

// The marks of this archive, and behind them what the homes say.
fn told_marks(alloc: Global, known: &[Known], archive: &Known) -> Result<Vec<Mark>, AllocError>
    ensures marks { IfOk result (λ marks. reverse marks.items ≡ spec.with_homes known.now (reverse archive.now)) }
    ensures unretired { IfOk result (λ marks. floor_of (reverse marks.items) ≡ None) }
{
    let mut marks = copies_of(alloc, archive.as_slice())?;
    for mark in archive.as_slice() {
        add_told(&mut marks, known, archive, mark)?;
    }
    Ok(marks)
}

// The map as of the pseudotime by these marks, among which no floor is.
fn asof_by(alloc: Global, marks: &[Mark], at: PseudoTime) -> Result<Vec<Moved<Value>>, AsOfFault>
    requires unretired { floor_of (reverse marks.now) ≡ None }
    ensures ok { IfOk result (λ list. (o : ObjectId) →
        moved_at o list.items ≡ entry_of o (last_below (reverse marks.now) o at)) }
    ensures rising { IfOk result (λ list. AreRising list.items) }
    ensures decided { OnOk result (first_open (reverse marks.now) at ≡ None) }
    ensures undecided { IfErr result (λ e. (e ≡ fault.NoMemory) ⊎
        ((s : Start) × (first_open (reverse marks.now) at ≡ Some s) ×
        (e ≡ fault.Undecided s.object s.start))) }
{
    if let Some(first) = opens::first_open(alloc, marks, at)? {
        return Err(AsOfFault::Undecided {
            object: first.object,
            start: first.start,
        });
    }
    latest_of(alloc, marks, at)
}

/// The map of a repository as of the pseudotime: of each object its last committed version below. What its
/// archive doesn't know of an attempt is what the archive of the attempt's home says. The archives are those of
/// repositories 1, 2 and so on.
pub fn asof_among(
    alloc: Global,
    known: &[Known],
    repository: u8,
    at: PseudoTime,
) -> Result<Vec<Moved<Value>>, AsOfFault>
    requires low { 1 ≤ repository }
    requires high { repository ≤ length known.now }
    ensures ok { IfOk result (λ list. (o : ObjectId) →
        moved_at o list.items ≡ entry_of o (last_below (spec.informed known.now repository) o at)) }
    ensures rising { IfOk result (λ list. AreRising list.items) }
    ensures decided { OnOk result (first_open (spec.informed known.now repository) at ≡ None) }
    ensures undecided { IfErr result (λ e. (e ≡ fault.NoMemory) ⊎
        ((s : Start) × (first_open (spec.informed known.now repository) at ≡ Some s) ×
        (e ≡ fault.Undecided s.object s.start))) }
{
    let archive = &known[usize::from(repository) - 1];
    let marks = told_marks(alloc, known, archive)?;
    asof_by(alloc, marks.as_slice(), at)
}
