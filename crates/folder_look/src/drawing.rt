//! The picture of histories, and the versions of each object.
ghost use Rattle.std.specs.Prelude.{◌≡◌, ◌++◌, OnOk, drop, take};
ghost use Rattle.std.specs.List.{flat_map};
ghost use Rattle.folder_look.specs.Drawing as spec;
ghost use Rattle.folder_look.specs.Shown.{parts_of};

use crate::axes::column;
use crate::looks::{ObjectRow, VersionRow};
use crate::parts::{Part, push_parts};
use crate::shown::{Shown, push_stamp_ref, push_time_ref};
use crate::values::{push_fold, push_time_or_none, push_value_cut};
use pseudo_time::{PseudoTime, Stamp};
use std::alloc::{AllocError, Global};
use std::collections::BTreeSet;

// Appends how a version stands.
fn push_state(out: &mut Vec<u8>, state: Option<bool>) -> Result<(), AllocError>
    ensures { OnOk result (out.new.items ≡ out.old.items ++ spec.state_word state) }
{
    match state {
        None => out.extend_from_slice(b"undecided"),
        Some(true) => out.extend_from_slice(b"committed"),
        Some(false) => out.extend_from_slice(b"aborted"),
    }
}

// Appends the class of a version whose repository doesn't know its state, or that an older volume
// alone has.
fn push_version_mark(out: &mut Vec<u8>, settled: bool, older: Option<u64>) -> Result<(), AllocError>
    ensures { OnOk result (out.new.items ≡ out.old.items ++ spec.mark_class settled older) }
{
    match (settled, older) {
        (false, _) => out.extend_from_slice(b" unsettled"),
        (true, None) => Ok(()),
        (true, Some(_)) => out.extend_from_slice(b" older"),
    }
}

// How many columns the bar of a version has.
fn bar_to(axis: &BTreeSet<Stamp>, from: u64, end: &Option<PseudoTime>) -> u64
    ensures { result ≡ spec.bar_to axis.now.keys from end.now }
{
    match end {
        None => 1,
        Some(end) => {
            let to = column(axis, end.stamp());
            if from < to { to - from } else { 1 }
        }
    }
}

// Appends where a bar begins, and how many columns it has.
fn push_place(alloc: Global, out: &mut Vec<u8>, from: u64, columns: u64) -> Result<(), AllocError>
    ensures { OnOk result (out.new.items ≡ out.old.items ++ spec.place_text from columns) }
{
    push_parts(
        alloc,
        out,
        &[
            Part::Words(b"\" style=\"--a:"),
            Part::Number(from),
            Part::Words(b";--w:"),
            Part::Number(columns),
            Part::Words(b"\">"),
        ],
    )
}

// Appends where the bar of a version begins, and how many columns it has.
fn push_version_place(
    alloc: Global,
    out: &mut Vec<u8>,
    axis: &BTreeSet<Stamp>,
    version: &VersionRow,
) -> Result<(), AllocError>
    ensures { OnOk result (out.new.items ≡ out.old.items ++ spec.version_place axis.now.keys version.now) }
{
    let from = column(axis, version.start.stamp());
    push_place(alloc, out, from, bar_to(axis, from, &version.end))
}

// Appends the bar of a version.
fn push_bar(
    alloc: Global,
    out: &mut Vec<u8>,
    axis: &BTreeSet<Stamp>,
    version: &VersionRow,
) -> Result<(), AllocError>
    ensures { OnOk result (out.new.items ≡ out.old.items ++ spec.bar_text axis.now.keys version.now) }
{
    out.extend_from_slice(b"<i class=\"")?;
    push_state(out, version.state)?;
    push_version_mark(out, version.settled, version.older)?;
    push_version_place(alloc, out, axis, version)?;
    push_value_cut(alloc, out, 20, &version.value)?;
    out.extend_from_slice(b"</i>\n")
}

// Appends the bars of versions.
fn push_versions_bars(
    alloc: Global,
    out: &mut Vec<u8>,
    axis: &BTreeSet<Stamp>,
    versions: &[VersionRow],
) -> Result<(), AllocError>
    ensures { OnOk result (out.new.items ≡ out.old.items ++ flat_map (spec.bar_text axis.now.keys) versions.now) }
{
    for version in versions {
        push_bar(alloc, out, axis, version)?;
    }
    Ok(())
}

// Appends how far an origin was read.
fn push_origin_bar(
    alloc: Global,
    out: &mut Vec<u8>,
    axis: &BTreeSet<Stamp>,
    end: &Option<PseudoTime>,
) -> Result<(), AllocError>
    ensures { OnOk result (out.new.items ≡ out.old.items ++ spec.origin_bar axis.now.keys end.now) }
{
    match end {
        None => Ok(()),
        Some(end) => push_parts(
            alloc,
            out,
            &[
                Part::Words(b"<i class=\"origin\" style=\"--w:"),
                Part::Number(column(axis, end.stamp())),
                Part::Words(b"\"></i>\n"),
            ],
        ),
    }
}

// Appends a floor.
fn push_floor_line(
    alloc: Global,
    out: &mut Vec<u8>,
    axis: &BTreeSet<Stamp>,
    floor: &Option<PseudoTime>,
) -> Result<(), AllocError>
    ensures { OnOk result (out.new.items ≡ out.old.items ++ spec.floor_line axis.now.keys floor.now) }
{
    match floor {
        None => Ok(()),
        Some(floor) => push_parts(
            alloc,
            out,
            &[
                Part::Words(b"<i class=\"floor\" style=\"--a:"),
                Part::Number(column(axis, floor.stamp())),
                Part::Words(b"\"></i>\n"),
            ],
        ),
    }
}

// Appends the bars of an object.
fn push_bars(
    alloc: Global,
    out: &mut Vec<u8>,
    axis: &BTreeSet<Stamp>,
    row: &ObjectRow,
) -> Result<(), AllocError>
    ensures { OnOk result (out.new.items ≡ out.old.items ++ spec.bars_text axis.now.keys row.now) }
{
    push_origin_bar(alloc, out, axis, &row.origin)?;
    push_floor_line(alloc, out, axis, &row.floor)?;
    push_versions_bars(alloc, out, axis, row.versions.as_slice())
}

// Appends which older volume alone has a version.
fn push_older(alloc: Global, out: &mut Vec<u8>, older: Option<u64>) -> Result<(), AllocError>
    ensures { OnOk result (out.new.items ≡ out.old.items ++ spec.older_word older) }
{
    match older {
        None => Ok(()),
        Some(volume) => push_parts(
            alloc,
            out,
            &[Part::Words(b", only in volume "), Part::Number(volume)],
        ),
    }
}

// Appends that its repository hasn't learned the state of a version.
fn push_settled(out: &mut Vec<u8>, settled: bool) -> Result<(), AllocError>
    ensures { OnOk result (out.new.items ≡ out.old.items ++ spec.settled_word settled) }
{
    if settled {
        return Ok(());
    }
    out.extend_from_slice(b", not settled here yet")
}

// Appends the state of a version, and its value.
fn push_version_end(
    alloc: Global,
    out: &mut Vec<u8>,
    version: &VersionRow,
) -> Result<(), AllocError>
    ensures { OnOk result (out.new.items ≡ out.old.items ++ spec.version_end version.now) }
{
    push_state(out, version.state)?;
    push_older(alloc, out, version.older)?;
    push_settled(out, version.settled)?;
    push_parts(
        alloc,
        out,
        &[
            Part::Words(b"</td><td>"),
            Part::Printed(&version.value),
            Part::Words(b"</td></tr>\n"),
        ],
    )
}

// Appends the whole of a version, whose start leads to its attempt.
fn push_version(
    alloc: Global,
    out: &mut Vec<u8>,
    shown: &Shown,
    version: &VersionRow,
) -> Result<(), AllocError>
    ensures { OnOk result (out.new.items ≡ out.old.items ++ spec.version_text (parts_of shown.now) version.now) }
{
    out.extend_from_slice(b"<tr><td>")?;
    push_time_ref(alloc, out, shown, version.start)?;
    out.extend_from_slice(b"</td><td>")?;
    push_time_or_none(alloc, out, &version.end)?;
    out.extend_from_slice(b"</td><td>")?;
    push_version_end(alloc, out, version)
}

// Appends versions, in order.
fn push_each_version(
    alloc: Global,
    out: &mut Vec<u8>,
    shown: &Shown,
    versions: &[VersionRow],
) -> Result<(), AllocError>
    ensures { OnOk result (out.new.items ≡ out.old.items ++
        flat_map (spec.version_text (parts_of shown.now)) versions.now) }
{
    for version in versions {
        push_version(alloc, out, shown, version)?;
    }
    Ok(())
}

// Appends the row of an origin that was read.
fn push_origin(alloc: Global, out: &mut Vec<u8>, end: &Option<PseudoTime>) -> Result<(), AllocError>
    ensures { OnOk result (out.new.items ≡ out.old.items ++ spec.origin_text end.now) }
{
    match end {
        None => Ok(()),
        Some(end) => push_parts(
            alloc,
            out,
            &[
                Part::Words(b"<tr><td>origin</td><td>"),
                Part::Time(*end),
                Part::Words(b"</td><td></td><td>what was there at first</td></tr>\n"),
            ],
        ),
    }
}

// Appends a floor in words.
fn push_floor(
    alloc: Global,
    out: &mut Vec<u8>,
    floor: &Option<PseudoTime>,
) -> Result<(), AllocError>
    ensures { OnOk result (out.new.items ≡ out.old.items ++ spec.floor_text floor.now) }
{
    match floor {
        None => Ok(()),
        Some(floor) => push_parts(
            alloc,
            out,
            &[
                Part::Words(b"<p>floor "),
                Part::Time(*floor),
                Part::Words(b"</p>\n"),
            ],
        ),
    }
}

// Appends how many versions aren't shown.
fn push_hidden(alloc: Global, out: &mut Vec<u8>, hidden: u64) -> Result<(), AllocError>
    ensures { OnOk result (out.new.items ≡ out.old.items ++ spec.hidden_text hidden) }
{
    if hidden == 0 {
        return Ok(());
    }
    push_parts(
        alloc,
        out,
        &[
            Part::Words(b"<p>versions, "),
            Part::Number(hidden),
            Part::Words(b" more: choose with --object, --from and --to</p>\n"),
        ],
    )
}

// Appends the versions of an object.
fn push_versions(
    alloc: Global,
    out: &mut Vec<u8>,
    shown: &Shown,
    row: &ObjectRow,
) -> Result<(), AllocError>
    ensures { OnOk result (out.new.items ≡ out.old.items ++ spec.versions_text (parts_of shown.now) row.now) }
{
    out.extend_from_slice(
        b"<table><thead><tr><th scope=\"col\">version</th><th scope=\"col\">read up to</th>\
          <th scope=\"col\">state</th><th scope=\"col\">value</th></tr></thead><tbody>\n",
    )?;
    push_origin(alloc, out, &row.origin)?;
    push_each_version(alloc, out, shown, row.versions.as_slice())?;
    out.extend_from_slice(b"</tbody></table>\n")?;
    push_floor(alloc, out, &row.floor)?;
    push_hidden(alloc, out, row.hidden)
}

// Appends the head of a row.
fn push_row_head(alloc: Global, out: &mut Vec<u8>, row: &ObjectRow) -> Result<(), AllocError>
    ensures { OnOk result (out.new.items ≡ out.old.items ++ spec.row_head row.now) }
{
    push_parts(
        alloc,
        out,
        &[
            Part::Words(b"<details class=\"row\" id=\"o"),
            Part::Object(row.object),
            Part::Words(b"\"><summary><b>"),
            Part::Object(row.object),
            Part::Words(b"</b><span class=\"bars\">\n"),
        ],
    )
}

// Appends an object: its bars, and its versions folded away.
fn push_row(
    alloc: Global,
    out: &mut Vec<u8>,
    shown: &Shown,
    axis: &BTreeSet<Stamp>,
    row: &ObjectRow,
) -> Result<(), AllocError>
    ensures { OnOk result (out.new.items ≡ out.old.items ++ spec.row_text (parts_of shown.now) axis.now.keys row.now) }
{
    push_row_head(alloc, out, row)?;
    push_bars(alloc, out, axis, row)?;
    out.extend_from_slice(b"</span></summary>\n")?;
    push_versions(alloc, out, shown, row)?;
    out.extend_from_slice(b"</details>\n")
}

// Whether the stamp in this column has its name: of many each so manieth.
fn is_named(axis: &BTreeSet<Stamp>, at: u64) -> bool
    ensures { result ≡ spec.is_named (spec.every_of axis.now.keys) at }
{
    let every = axis.len() as u64 / 8 + 1;
    at % every == 0
}

// Appends the name of the stamp in this column.
fn push_named(
    alloc: Global,
    out: &mut Vec<u8>,
    shown: &Shown,
    at: u64,
    stamp: Stamp,
) -> Result<(), AllocError>
    ensures { OnOk result (out.new.items ≡ out.old.items ++ spec.named_mark (parts_of shown.now) at stamp) }
{
    push_parts(
        alloc,
        out,
        &[
            Part::Words(b"<i style=\"--a:"),
            Part::Number(at),
            Part::Words(b"\">"),
        ],
    )?;
    push_stamp_ref(alloc, out, shown, stamp)?;
    out.extend_from_slice(b"</i>\n")
}

// Appends a stamp of the axis, if it has its name.
fn push_mark(
    alloc: Global,
    out: &mut Vec<u8>,
    shown: &Shown,
    axis: &BTreeSet<Stamp>,
    stamp: Stamp,
) -> Result<(), AllocError>
    ensures { OnOk result (out.new.items ≡ out.old.items ++
        spec.mark_text (parts_of shown.now) axis.now.keys (spec.every_of axis.now.keys) stamp) }
{
    let at = column(axis, stamp);
    if is_named(axis, at) {
        push_named(alloc, out, shown, at, stamp)
    } else {
        Ok(())
    }
}

// Appends the stamps of the axis.
fn push_marks(
    alloc: Global,
    out: &mut Vec<u8>,
    shown: &Shown,
    axis: &BTreeSet<Stamp>,
) -> Result<(), AllocError>
    ensures { OnOk result (out.new.items ≡ out.old.items ++
        flat_map (spec.mark_text (parts_of shown.now) axis.now.keys (spec.every_of axis.now.keys)) axis.now.keys) }
{
    for stamp in axis {
        push_mark(alloc, out, shown, axis, *stamp)?;
    }
    Ok(())
}

// Appends the axis.
fn push_axis(
    alloc: Global,
    out: &mut Vec<u8>,
    shown: &Shown,
    axis: &BTreeSet<Stamp>,
) -> Result<(), AllocError>
    ensures { OnOk result (out.new.items ≡ out.old.items ++ spec.axis_text (parts_of shown.now) axis.now.keys) }
{
    out.extend_from_slice(b"<div class=\"axis\"><b></b><span class=\"bars\">\n")?;
    push_marks(alloc, out, shown, axis)?;
    out.extend_from_slice(b"</span></div>\n")
}

// Appends a row for each object.
fn push_each(
    alloc: Global,
    out: &mut Vec<u8>,
    shown: &Shown,
    axis: &BTreeSet<Stamp>,
    rows: &[ObjectRow],
) -> Result<(), AllocError>
    ensures { OnOk result (out.new.items ≡ out.old.items ++
        flat_map (spec.row_text (parts_of shown.now) axis.now.keys) rows.now) }
{
    for row in rows {
        push_row(alloc, out, shown, axis, row)?;
    }
    Ok(())
}

// Begins the picture.
fn push_rows_head(
    alloc: Global,
    out: &mut Vec<u8>,
    axis: &BTreeSet<Stamp>,
) -> Result<(), AllocError>
    ensures { OnOk result (out.new.items ≡ out.old.items ++ spec.rows_head axis.now.keys) }
{
    push_parts(
        alloc,
        out,
        &[
            Part::Words(b"<div class=\"histories\" style=\"--n:"),
            Part::Number(axis.len() as u64),
            Part::Words(b"\">\n"),
        ],
    )
}

// Appends the axis, and a row for each object.
fn push_rows(
    alloc: Global,
    out: &mut Vec<u8>,
    shown: &Shown,
    axis: &BTreeSet<Stamp>,
    rows: &[ObjectRow],
) -> Result<(), AllocError>
    ensures { OnOk result (out.new.items ≡ out.old.items ++ spec.rows_text (parts_of shown.now) axis.now.keys rows.now) }
{
    push_rows_head(alloc, out, axis)?;
    push_axis(alloc, out, shown, axis)?;
    push_each(alloc, out, shown, axis, rows)?;
    out.extend_from_slice(b"</div>\n")
}

// Appends objects, folded away.
fn push_folded(
    alloc: Global,
    out: &mut Vec<u8>,
    shown: &Shown,
    axis: &BTreeSet<Stamp>,
    rows: &[ObjectRow],
) -> Result<(), AllocError>
    ensures { OnOk result (out.new.items ≡ out.old.items ++ spec.folded_rows (parts_of shown.now) axis.now.keys rows.now) }
{
    push_fold(alloc, out, rows.len() as u64)?;
    push_rows(alloc, out, shown, axis, rows)?;
    out.extend_from_slice(b"</details>\n")
}

// Appends objects folded away, if there are any.
fn push_more(
    alloc: Global,
    out: &mut Vec<u8>,
    shown: &Shown,
    axis: &BTreeSet<Stamp>,
    rows: &[ObjectRow],
) -> Result<(), AllocError>
    ensures { OnOk result (out.new.items ≡ out.old.items ++ spec.more_rows (parts_of shown.now) axis.now.keys rows.now) }
{
    if rows.len() == 0 {
        Ok(())
    } else {
        push_folded(alloc, out, shown, axis, rows)
    }
}

// Appends the first 20 objects.
fn push_front(
    alloc: Global,
    out: &mut Vec<u8>,
    shown: &Shown,
    axis: &BTreeSet<Stamp>,
    rows: &[ObjectRow],
) -> Result<(), AllocError>
    ensures { OnOk result (out.new.items ≡ out.old.items ++ spec.rows_text (parts_of shown.now) axis.now.keys (take 20 rows.now)) }
{
    push_rows(alloc, out, shown, axis, &rows[..rows.len().min(20)])
}

// Appends those that the first 20 leave.
fn push_back(
    alloc: Global,
    out: &mut Vec<u8>,
    shown: &Shown,
    axis: &BTreeSet<Stamp>,
    rows: &[ObjectRow],
) -> Result<(), AllocError>
    ensures { OnOk result (out.new.items ≡ out.old.items ++ spec.more_rows (parts_of shown.now) axis.now.keys (drop 20 rows.now)) }
{
    push_more(alloc, out, shown, axis, &rows[20usize.min(rows.len())..])
}

/// Appends all objects; those after the first 20 are folded away.
pub fn push_all_rows(
    alloc: Global,
    out: &mut Vec<u8>,
    shown: &Shown,
    axis: &BTreeSet<Stamp>,
    rows: &[ObjectRow],
) -> Result<(), AllocError>
    ensures { OnOk result (out.new.items ≡ out.old.items ++ spec.all_rows (parts_of shown.now) axis.now.keys rows.now) }
{
    push_front(alloc, out, shown, axis, rows)?;
    push_back(alloc, out, shown, axis, rows)
}
