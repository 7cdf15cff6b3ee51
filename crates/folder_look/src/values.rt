//! The current value of each object.
ghost use Rattle.std.specs.Prelude.{◌≡◌, ◌++◌, OnOk, drop, take};
ghost use Rattle.std.specs.List.{flat_map};
ghost use Rattle.folder_look.specs.Shown.{parts_of};
ghost use Rattle.folder_look.specs.Values as spec;

use crate::looks::{ObjectRow, VersionRow};
use crate::parts::{Part, push_parts};
use crate::shown::{Shown, push_time_ref};
use page_text::push_text;
use pseudo_time::PseudoTime;
use std::alloc::{AllocError, Global};
use value_form::Value;

// Appends a text, or the front of a longer one.
fn push_cut(out: &mut Vec<u8>, most: usize, text: &[u8]) -> Result<(), AllocError>
    ensures { OnOk result (out.new.items ≡ out.old.items ++ spec.cut_text most text.now) }
{
    if text.len() > most {
        push_text(out, &text[..most])?;
        out.extend_from_slice(b"&#8230;")
    } else {
        push_text(out, text)
    }
}

/// Appends so many bytes of a printed value.
pub fn push_value_cut(
    alloc: Global,
    out: &mut Vec<u8>,
    most: usize,
    value: &Value,
) -> Result<(), AllocError>
    ensures { OnOk result (out.new.items ≡ out.old.items ++ spec.value_cut most value.now) }
{
    let mut text = Vec::new(alloc);
    value.print(alloc, &mut text)?;
    push_cut(out, most, text.as_slice())
}

/// Appends a pseudotime, if there is one.
pub fn push_time_or_none(
    alloc: Global,
    out: &mut Vec<u8>,
    time: &Option<PseudoTime>,
) -> Result<(), AllocError>
    ensures { OnOk result (out.new.items ≡ out.old.items ++ spec.time_or_none time.now) }
{
    match time {
        None => out.extend_from_slice(b"none"),
        Some(time) => push_parts(alloc, out, &[Part::Time(*time)]),
    }
}

// Appends a version: its value, its start, and how far it was read.
fn push_version_cells(
    alloc: Global,
    out: &mut Vec<u8>,
    shown: &Shown,
    version: &VersionRow,
) -> Result<(), AllocError>
    ensures { OnOk result (out.new.items ≡ out.old.items ++ spec.version_cells (parts_of shown.now) version.now) }
{
    out.extend_from_slice(b"<td>")?;
    push_value_cut(alloc, out, 80, &version.value)?;
    out.extend_from_slice(b"</td><td>")?;
    push_time_ref(alloc, out, shown, version.start)?;
    out.extend_from_slice(b"</td><td>")?;
    push_time_or_none(alloc, out, &version.end)?;
    out.extend_from_slice(b"</td>")
}

// Appends the last committed version.
fn push_last(
    alloc: Global,
    out: &mut Vec<u8>,
    shown: &Shown,
    last: &Option<VersionRow>,
) -> Result<(), AllocError>
    ensures { OnOk result (out.new.items ≡ out.old.items ++ spec.last_cells (parts_of shown.now) last.now) }
{
    match last {
        None => out.extend_from_slice(b"<td>none is committed</td><td></td><td></td>"),
        Some(version) => push_version_cells(alloc, out, shown, version),
    }
}

// Appends how many versions are undecided.
fn push_undecided(alloc: Global, out: &mut Vec<u8>, count: u64) -> Result<(), AllocError>
    ensures { OnOk result (out.new.items ≡ out.old.items ++ spec.open_text count) }
{
    if count == 0 {
        return Ok(());
    }
    push_parts(
        alloc,
        out,
        &[Part::Words(b", undecided "), Part::Number(count)],
    )
}

// Appends the row of an object, which leads to its versions.
fn push_row(
    alloc: Global,
    out: &mut Vec<u8>,
    shown: &Shown,
    row: &ObjectRow,
) -> Result<(), AllocError>
    ensures { OnOk result (out.new.items ≡ out.old.items ++ spec.value_text_of (parts_of shown.now) row.now) }
{
    push_parts(
        alloc,
        out,
        &[
            Part::Words(b"<tr><th scope=\"row\"><a href=\"#o"),
            Part::Object(row.object),
            Part::Words(b"\">"),
            Part::Object(row.object),
            Part::Words(b"</a></th>"),
        ],
    )?;
    push_last(alloc, out, shown, &row.last)?;
    push_parts(alloc, out, &[Part::Words(b"<td>"), Part::Number(row.count)])?;
    push_undecided(alloc, out, row.undecided)?;
    out.extend_from_slice(b"</td></tr>\n")
}

// Appends the rows of objects.
fn push_rows(
    alloc: Global,
    out: &mut Vec<u8>,
    shown: &Shown,
    rows: &[ObjectRow],
) -> Result<(), AllocError>
    ensures { OnOk result (out.new.items ≡ out.old.items ++ flat_map (spec.value_text_of (parts_of shown.now)) rows.now) }
{
    for row in rows {
        push_row(alloc, out, shown, row)?;
    }
    Ok(())
}

// Appends a table of objects.
fn push_table(
    alloc: Global,
    out: &mut Vec<u8>,
    shown: &Shown,
    rows: &[ObjectRow],
) -> Result<(), AllocError>
    ensures { OnOk result (out.new.items ≡ out.old.items ++ spec.value_table (parts_of shown.now) rows.now) }
{
    out.extend_from_slice(
        b"<table><thead><tr><th scope=\"col\">object</th><th scope=\"col\">value</th>\
          <th scope=\"col\">version</th><th scope=\"col\">read up to</th>\
          <th scope=\"col\">versions</th></tr></thead><tbody>\n",
    )?;
    push_rows(alloc, out, shown, rows)?;
    out.extend_from_slice(b"</tbody></table>\n")
}

/// Folds so many objects away.
pub fn push_fold(alloc: Global, out: &mut Vec<u8>, count: u64) -> Result<(), AllocError>
    ensures { OnOk result (out.new.items ≡ out.old.items ++ spec.fold_head count) }
{
    push_parts(
        alloc,
        out,
        &[
            Part::Words(b"<details class=\"more\"><summary>objects, "),
            Part::Number(count),
            Part::Words(b" more</summary>\n"),
        ],
    )
}

// Appends objects, folded away.
fn push_folded(
    alloc: Global,
    out: &mut Vec<u8>,
    shown: &Shown,
    rows: &[ObjectRow],
) -> Result<(), AllocError>
    ensures { OnOk result (out.new.items ≡ out.old.items ++ spec.folded_values (parts_of shown.now) rows.now) }
{
    push_fold(alloc, out, rows.len() as u64)?;
    push_table(alloc, out, shown, rows)?;
    out.extend_from_slice(b"</details>\n")
}

// Appends objects folded away, if there are any.
fn push_more(
    alloc: Global,
    out: &mut Vec<u8>,
    shown: &Shown,
    rows: &[ObjectRow],
) -> Result<(), AllocError>
    ensures { OnOk result (out.new.items ≡ out.old.items ++ spec.more_values (parts_of shown.now) rows.now) }
{
    if rows.len() == 0 {
        Ok(())
    } else {
        push_folded(alloc, out, shown, rows)
    }
}

// Appends the first 20 objects.
fn push_front(
    alloc: Global,
    out: &mut Vec<u8>,
    shown: &Shown,
    rows: &[ObjectRow],
) -> Result<(), AllocError>
    ensures { OnOk result (out.new.items ≡ out.old.items ++ spec.value_table (parts_of shown.now) (take 20 rows.now)) }
{
    push_table(alloc, out, shown, &rows[..rows.len().min(20)])
}

// Appends those that the first 20 leave.
fn push_back(
    alloc: Global,
    out: &mut Vec<u8>,
    shown: &Shown,
    rows: &[ObjectRow],
) -> Result<(), AllocError>
    ensures { OnOk result (out.new.items ≡ out.old.items ++ spec.more_values (parts_of shown.now) (drop 20 rows.now)) }
{
    push_more(alloc, out, shown, &rows[20usize.min(rows.len())..])
}

/// Appends the current values; those of more than 20 objects are folded away.
pub fn push_values(
    alloc: Global,
    out: &mut Vec<u8>,
    shown: &Shown,
    rows: &[ObjectRow],
) -> Result<(), AllocError>
    ensures { OnOk result (out.new.items ≡ out.old.items ++ spec.values_text (parts_of shown.now) rows.now) }
{
    out.extend_from_slice(b"<h2>Current values</h2>\n")?;
    push_front(alloc, out, shown, rows)?;
    push_back(alloc, out, shown, rows)
}
