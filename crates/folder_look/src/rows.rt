//! What is shown of an object, by the volumes of its repository.
ghost use Rattle.std.specs.Prelude.{◌≡◌, ◌++◌, ℕ, List, IfOk, OnOk, None, map, reverse};
ghost use Rattle.std.specs.BTreeSet.{contains};
ghost use Rattle.std.specs.List.{filter, list_any};
ghost use Rattle.pseudo_time.specs.Order.{same_time};
ghost use Rattle.pseudo_time.specs.TimeParts.{TimeParts, time_cmp};
ghost use Rattle.object_history.specs.History.{Seen};
ghost use Rattle.repository_log.specs.Logs.{marks};
ghost use Rattle.report_writer.specs.Histories.{falling};
ghost use Rattle.folder_look.specs.Objects.{logs_of};
ghost use Rattle.folder_look.specs.Rows as spec;
ghost use Rattle.folder_look.specs.Told as told;

use crate::choices::Choice;
use crate::homes::{is_open, tell_homes};
use crate::looks::{MediumLook, ObjectRow, VersionRow};
use crate::volumes::{current_of, is_early, log_of};
use effect_form::Effect;
use object_history::Settles;
use pseudo_time::PseudoTime;
use report_writer::{Version, floor_of, latest, reach, telling_of};
use std::alloc::{AllocError, Global};
use std::collections::BTreeSet;
use value_form::{Items, ObjectId};

// Where these versions start.
fn starts_of(alloc: Global, versions: &[Version]) -> Result<BTreeSet<PseudoTime>, AllocError>
    ensures { IfOk result (λ starts. (x : TimeParts) →
        contains time_cmp starts x ≡ list_any (λ v. same_time x v.start) versions.now) }
{
    let mut starts = BTreeSet::new(alloc);
    for version in versions {
        starts.insert(version.start)?;
    }
    Ok(starts)
}

// Where the object's versions of a log start.
fn starts_in(
    alloc: Global,
    object: ObjectId,
    effects: &[Effect],
) -> Result<BTreeSet<PseudoTime>, AllocError>
    ensures { IfOk result (λ starts. (x : TimeParts) →
        contains time_cmp starts x ≡ spec.starts_at (falling object (marks (reverse effects.now))) x) }
{
    let telling = telling_of(alloc, object, effects)?;
    starts_of(alloc, telling.versions.as_slice())
}

// A version as it is shown.
fn version_row(
    alloc: Global,
    older: Option<u64>,
    settles: &Settles,
    floor: &Option<PseudoTime>,
    version: &Version,
) -> Result<VersionRow, AllocError>
    ensures { IfOk result (λ row. row ≡ told.told_row older settles.now floor.now version.now) }
{
    let value = version.value.copy(alloc)?;
    Ok(VersionRow {
        start: version.start,
        end: reach(floor, version),
        state: settles.get(version.start.stamp()),
        settled: true,
        value,
        older,
    })
}

// Whether it is chosen, and doesn't start where one of the next volume does.
fn is_told_in(choice: &Choice, next: &BTreeSet<PseudoTime>, version: &Version) -> bool
    ensures { result ≡ told.is_told_in choice.now next.now version.now }
{
    choice.has_start(version.start) && !next.contains(&version.start)
}

// Adds those versions that are chosen and don't start where one of the next volume does.
fn push_versions(
    alloc: Global,
    choice: &Choice,
    older: Option<u64>,
    next: &BTreeSet<PseudoTime>,
    settles: &Settles,
    floor: &Option<PseudoTime>,
    versions: &[Version],
    rows: &mut Vec<VersionRow>,
) -> Result<(), AllocError>
    ensures { OnOk result (rows.new.items ≡ rows.old.items ++ map (told.told_row older settles.now floor.now)
        (filter (told.is_told_in choice.now next.now) versions.now)) }
{
    for version in versions {
        if is_told_in(choice, next, version) {
            rows.push(version_row(alloc, older, settles, floor, version)?)?;
        }
    }
    Ok(())
}

// Adds what a volume with this log has of the object and the next one, which has versions that start
// at these times, hasn't.
fn push_volume(
    alloc: Global,
    choice: &Choice,
    object: ObjectId,
    older: Option<u64>,
    next: &BTreeSet<PseudoTime>,
    effects: &[Effect],
    rows: &mut Vec<VersionRow>,
) -> Result<(), AllocError>
    ensures { OnOk result ((qs : List Seen) → ((x : TimeParts) → contains time_cmp next.now x ≡ spec.starts_at qs x) →
        rows.new.items ≡ rows.old.items ++ spec.rows_with choice.now older qs object (marks (reverse effects.now))) }
{
    let mut telling = telling_of(alloc, object, effects)?;
    telling.versions.reverse();
    let floor = floor_of(effects);
    push_versions(
        alloc,
        choice,
        older,
        next,
        &telling.settles,
        &floor,
        telling.versions.as_slice(),
        rows,
    )
}

// Adds what the volume with the log `before` has of the object and the one behind it, with the log
// `next`, hasn't. So many volumes come before the latter.
fn push_behind(
    alloc: Global,
    choice: &Choice,
    object: ObjectId,
    volumes: usize,
    before: &[Effect],
    next: &[Effect],
    rows: &mut Vec<VersionRow>,
) -> Result<(), AllocError>
    ensures { OnOk result (rows.new.items ≡ rows.old.items ++
        spec.given_up_at choice.now object volumes before.now next.now) }
{
    if volumes == 0 {
        return Ok(());
    }
    let starts = starts_in(alloc, object, next)?;
    let older = Some((volumes - 1) as u64);
    push_volume(alloc, choice, object, older, &starts, before, rows)
}

// Adds what each volume before this one has of the object and the one behind it hasn't.
fn push_given_up(
    alloc: Global,
    choice: &Choice,
    object: ObjectId,
    media: &[MediumLook],
    last: usize,
    rows: &mut Vec<VersionRow>,
) -> Result<(), AllocError>
    ensures { OnOk result (rows.new.items ≡ rows.old.items ++ spec.given_up_by choice.now object last
        (logs_of object.repository media.now)) }
{
    let mut before: &[Effect] = &[];
    let mut volumes = 0;
    for medium in media {
        if is_early(object.repository, medium, volumes, last) {
            let log = medium.log.as_slice();
            push_behind(alloc, choice, object, volumes, before, log, rows)?;
            before = log;
            volumes += 1;
        }
    }
    Ok(())
}

// An equal version.
fn copy_of(alloc: Global, version: &VersionRow) -> Result<VersionRow, AllocError>
    ensures { IfOk result (λ row. row ≡ version.now) }
{
    let value = version.value.copy(alloc)?;
    Ok(VersionRow {
        start: version.start,
        end: version.end,
        state: version.state,
        settled: version.settled,
        value,
        older: version.older,
    })
}

// Whether it is committed, and in the current volume.
fn is_current(state: Option<bool>, older: Option<u64>) -> bool
    ensures { result ≡ spec.is_current state older }
{
    match (state, older) {
        (Some(true), None) => true,
        (Some(true), Some(_)) => false,
        (Some(false), _) => false,
        (None, _) => false,
    }
}

// The last that is committed in the current volume.
fn last_of(alloc: Global, versions: &[VersionRow]) -> Result<Option<VersionRow>, AllocError>
    ensures { IfOk result (λ last. last ≡ spec.last_from None versions.now) }
{
    let mut last = None;
    for version in versions {
        if is_current(version.state, version.older) {
            last = Some(version);
        }
    }
    match last {
        None => Ok(None),
        Some(version) => Ok(Some(copy_of(alloc, version)?)),
    }
}

// How many versions are undecided.
fn open_in(versions: &[VersionRow]) -> u64
    ensures { result ≡ spec.open_from 0 versions.now }
{
    let mut count = 0u64;
    for version in versions {
        if is_open(version.state) {
            count = count.saturating_add(1);
        }
    }
    count
}

// The row of an object with these versions.
fn whole_row(
    alloc: Global,
    object: ObjectId,
    origin: Option<PseudoTime>,
    floor: Option<PseudoTime>,
    rows: Vec<VersionRow>,
) -> Result<ObjectRow, AllocError>
    ensures { IfOk result (λ row. row ≡ spec.whole_row object origin floor rows.items) }
{
    let count = rows.len() as u64;
    let undecided = open_in(rows.as_slice());
    let last = last_of(alloc, rows.as_slice())?;
    Ok(ObjectRow {
        object,
        origin,
        floor,
        versions: Items::of(rows),
        hidden: 0,
        count,
        undecided,
        last,
    })
}

/// The row with the first `most` of its versions. The others are counted.
pub fn cut_row(most: usize, row: ObjectRow) -> ObjectRow
    ensures { result ≡ spec.cut_row most row }
{
    let ObjectRow {
        object,
        origin,
        floor,
        versions,
        hidden: _,
        count,
        undecided,
        last,
    } = row;
    let mut versions = versions.into_vec();
    let hidden = versions.len().saturating_sub(most) as u64;
    versions.truncate(most);
    ObjectRow {
        object,
        origin,
        floor,
        versions: Items::of(versions),
        hidden,
        count,
        undecided,
        last,
    }
}

/// An object with those of its versions that are chosen, by what the volumes of its repository hold.
/// Of a version that is undecided there, the decision of its home is told.
pub fn object_row(
    alloc: Global,
    choice: &Choice,
    homes: &Settles,
    object: ObjectId,
    media: &[MediumLook],
) -> Result<ObjectRow, AllocError>
    ensures { IfOk result (λ row. row ≡ spec.object_row choice.now homes.now object
        (logs_of object.repository media.now)) }
{
    let last = current_of(object.repository, media);
    let effects = log_of(object.repository, media, last);
    let mut rows = Vec::new(alloc);
    push_given_up(alloc, choice, object, media, last, &mut rows)?;
    let mut telling = telling_of(alloc, object, effects)?;
    let floor = floor_of(effects);
    let origin = latest(&floor, telling.origin);
    telling.versions.reverse();
    let none = BTreeSet::new(alloc);
    push_versions(
        alloc,
        choice,
        None,
        &none,
        &telling.settles,
        &floor,
        telling.versions.as_slice(),
        &mut rows,
    )?;
    let told = tell_homes(homes, rows);
    let row = whole_row(alloc, object, origin, floor, told)?;
    Ok(row)
}
