//! The page of a folder.
ghost use Rattle.std.specs.Prelude.{◌≡◌, ◌++◌, OnOk, IfOk, length};
ghost use Rattle.std.specs.List.{flat_map};
ghost use Rattle.folder_look.specs.Objects.{objects_of, objects_left, rows_of};
ghost use Rattle.folder_look.specs.Page as spec;
ghost use Rattle.folder_look.specs.Shown.{parts_of};
ghost use Rattle.folder_look.specs.Tallies.{tally_of};

use crate::axes::axis_of;
use crate::choices::Choice;
use crate::drawing::push_all_rows;
use crate::lines::push_lines;
use crate::looks::{MediumLook, ObjectRow};
use crate::media_text::{push_banners, push_name, push_table};
use crate::objects::{chosen, count_of, rows_in};
use crate::parts::{Part, push_parts};
use crate::runs::push_log;
use crate::shown::Shown;
use crate::sights::shown_of;
use crate::styles::push_style;
use crate::tallies::{Tally, tally_of};
use crate::values::push_values;
use pseudo_time::NodeKind;
use std::alloc::{AllocError, Global};
use value_form::Bytes;

// How many objects a page shows.
const MOST_OBJECTS: usize = 200;

// How many versions a page shows.
const MOST_VERSIONS: usize = 2000;

// Appends the head of the page.
fn push_head(alloc: Global, out: &mut Vec<u8>, name: &[u8]) -> Result<(), AllocError>
    ensures { OnOk result (out.new.items ≡ out.old.items ++ spec.head_text name.now) }
{
    push_parts(
        alloc,
        out,
        &[
            Part::Words(
                b"<!doctype html>\n<html lang=\"en\"><head><meta charset=\"utf-8\">\
                  <meta name=\"viewport\" content=\"width=device-width, initial-scale=1\"><title>",
            ),
            Part::Text(name),
            Part::Words(b"</title>\n<style>\n"),
        ],
    )?;
    push_style(out)?;
    push_parts(
        alloc,
        out,
        &[
            Part::Words(b"</style></head><body>\n<h1>"),
            Part::Text(name),
            Part::Words(b"</h1>\n"),
        ],
    )
}

// Says where no medium is there.
fn push_no_media(out: &mut Vec<u8>, media: &[MediumLook]) -> Result<(), AllocError>
    ensures { OnOk result (out.new.items ≡ out.old.items ++ spec.no_media_text media.now) }
{
    match media.first() {
        None => out.extend_from_slice(b"<p class=\"banner\">no file of a node is there</p>\n"),
        Some(_) => Ok(()),
    }
}

// Says what is wrong.
fn push_wrong(alloc: Global, out: &mut Vec<u8>, media: &[MediumLook]) -> Result<(), AllocError>
    ensures { OnOk result (out.new.items ≡ out.old.items ++ spec.banners_text media.now) }
{
    push_no_media(out, media)?;
    push_banners(alloc, out, media)
}

// Appends a number and what it counts, unless there is none.
fn push_cell(alloc: Global, out: &mut Vec<u8>, number: u64, word: &[u8]) -> Result<(), AllocError>
    ensures { OnOk result (out.new.items ≡ out.old.items ++ spec.cell_text number word.now) }
{
    if number == 0 {
        return Ok(());
    }
    push_parts(
        alloc,
        out,
        &[
            Part::Words(b"<span><b>"),
            Part::Number(number),
            Part::Words(b"</b> "),
            Part::Words(word),
            Part::Words(b"</span>\n"),
        ],
    )
}

// Appends the counts of acts.
fn push_act_cells(alloc: Global, out: &mut Vec<u8>, tally: Tally) -> Result<(), AllocError>
    ensures { OnOk result (out.new.items ≡ out.old.items ++ spec.act_cells tally) }
{
    push_cell(alloc, out, tally.acts, b"acts")?;
    push_cell(alloc, out, tally.tries, b"attempts")?;
    push_cell(alloc, out, tally.committed, b"committed")?;
    push_cell(alloc, out, tally.others, b"ended otherwise")
}

// Appends all counts.
fn push_tally(
    alloc: Global,
    out: &mut Vec<u8>,
    objects: u64,
    tally: Tally,
) -> Result<(), AllocError>
    ensures { OnOk result (out.new.items ≡ out.old.items ++ spec.tally_text objects tally) }
{
    out.extend_from_slice(b"<div class=\"tally\">\n")?;
    push_cell(alloc, out, objects, b"objects")?;
    push_act_cells(alloc, out, tally)?;
    out.extend_from_slice(b"</div>\n")
}

// Appends the counts of the media.
fn push_counts(alloc: Global, out: &mut Vec<u8>, media: &[MediumLook]) -> Result<(), AllocError>
    ensures { OnOk result (out.new.items ≡ out.old.items ++
        spec.tally_text (length (objects_of media.now)) (tally_of media.now)) }
{
    let objects = count_of(alloc, media)?;
    push_tally(alloc, out, objects, tally_of(media))
}

// Appends how many objects aren't shown.
fn push_left(alloc: Global, out: &mut Vec<u8>, left: u64) -> Result<(), AllocError>
    ensures { OnOk result (out.new.items ≡ out.old.items ++ spec.left_text left) }
{
    if left == 0 {
        return Ok(());
    }
    push_parts(
        alloc,
        out,
        &[
            Part::Words(b"<p class=\"banner\">objects, "),
            Part::Number(left),
            Part::Words(b" more aren't shown: choose with --object or --repository</p>\n"),
        ],
    )
}

// Appends what the forms of the time line mean.
fn push_try_key(out: &mut Vec<u8>) -> Result<(), AllocError>
    ensures { OnOk result (out.new.items ≡ out.old.items ++ spec.try_key) }
{
    out.extend_from_slice(
        b"<p class=\"key\">In the order of their stamps: <i class=\"committed\"></i> committed \
          <i class=\"refused\"></i> refused <i class=\"failed\"></i> withdrawn, failed or expired \
          <i class=\"open\"></i> open</p>\n",
    )
}

// Appends what the forms of the picture mean.
fn push_history_key(out: &mut Vec<u8>) -> Result<(), AllocError>
    ensures { OnOk result (out.new.items ≡ out.old.items ++ spec.history_key) }
{
    out.extend_from_slice(
        b"<p class=\"key\"><i class=\"committed\"></i> committed <i class=\"undecided\"></i> undecided \
          <i class=\"aborted\"></i> aborted <i class=\"committed unsettled\"></i> decided at its home, \
          not settled here yet <i class=\"committed older\"></i> only in an older volume \
          <i class=\"origin\"></i> reads of what was there at first <i class=\"floor\"></i> \
          floor of a retirement</p>\n\
          <p class=\"key\">A bar goes from a version's start to how far it was read. \
          Each stamp has a column, so equal widths aren't equal distances. \
          Open an object for its versions.</p>\n",
    )
}

// Appends the acts of a broker.
fn push_broker(
    alloc: Global,
    out: &mut Vec<u8>,
    shown: &Shown,
    medium: &MediumLook,
) -> Result<(), AllocError>
    ensures { OnOk result (out.new.items ≡ out.old.items ++ spec.broker_text (parts_of shown.now) medium.now) }
{
    out.extend_from_slice(b"<section><h3>")?;
    push_name(alloc, out, medium)?;
    out.extend_from_slice(b"</h3>\n")?;
    push_log(alloc, out, shown, medium.log.as_slice())?;
    out.extend_from_slice(b"</section>\n")
}

// Appends the acts of a broker; a repository has none.
fn push_acts(
    alloc: Global,
    out: &mut Vec<u8>,
    shown: &Shown,
    medium: &MediumLook,
) -> Result<(), AllocError>
    ensures { OnOk result (out.new.items ≡ out.old.items ++ spec.acts_text (parts_of shown.now) medium.now) }
{
    match medium.kind {
        NodeKind::Repository => Ok(()),
        NodeKind::Broker => push_broker(alloc, out, shown, medium),
    }
}

// Appends the acts of each broker.
fn push_all_acts(
    alloc: Global,
    out: &mut Vec<u8>,
    shown: &Shown,
    media: &[MediumLook],
) -> Result<(), AllocError>
    ensures { OnOk result (out.new.items ≡ out.old.items ++ flat_map (spec.acts_text (parts_of shown.now)) media.now) }
{
    for medium in media {
        push_acts(alloc, out, shown, medium)?;
    }
    Ok(())
}

// Appends how many attempts are shown, if there are more.
fn push_tries_left(alloc: Global, out: &mut Vec<u8>, shown: u64, all: u64) -> Result<(), AllocError>
    ensures { OnOk result (out.new.items ≡ out.old.items ++ spec.tries_left shown all) }
{
    if shown >= all {
        return Ok(());
    }
    push_parts(
        alloc,
        out,
        &[
            Part::Words(b"<p class=\"key\">attempts shown, "),
            Part::Number(shown),
            Part::Words(b" of "),
            Part::Number(all),
            Part::Words(
                b": 300 of each broker at most; choose with --object, --repository, --from and --to</p>\n",
            ),
        ],
    )
}

// Appends how many attempts are shown, if there are more in the logs.
fn push_left_tries(
    alloc: Global,
    out: &mut Vec<u8>,
    shown: &Shown,
    media: &[MediumLook],
) -> Result<(), AllocError>
    ensures { OnOk result (out.new.items ≡ out.old.items ++
        spec.tries_left (length (parts_of shown.now).tries) (tally_of media.now).tries) }
{
    push_tries_left(alloc, out, shown.tries.len() as u64, tally_of(media).tries)
}

// Appends the time line, and the acts of each broker.
fn push_attempts(
    alloc: Global,
    out: &mut Vec<u8>,
    shown: &Shown,
    media: &[MediumLook],
) -> Result<(), AllocError>
    ensures { OnOk result (out.new.items ≡ out.old.items ++ spec.attempts_text (parts_of shown.now) media.now) }
{
    out.extend_from_slice(b"<h2>Attempts</h2>\n")?;
    push_try_key(out)?;
    push_left_tries(alloc, out, shown, media)?;
    push_lines(alloc, out, shown, media)?;
    push_all_acts(alloc, out, shown, media)
}

// Appends the histories of these rows.
fn push_histories(
    alloc: Global,
    out: &mut Vec<u8>,
    shown: &Shown,
    rows: &[ObjectRow],
) -> Result<(), AllocError>
    ensures { OnOk result (out.new.items ≡ out.old.items ++ spec.histories_text (parts_of shown.now) rows.now) }
{
    let axis = axis_of(alloc, rows)?;
    out.extend_from_slice(b"<h2>Histories</h2>\n")?;
    push_history_key(out)?;
    push_all_rows(alloc, out, shown, &axis, rows)
}

// Appends the files.
fn push_files(
    alloc: Global,
    out: &mut Vec<u8>,
    acts: u64,
    media: &[MediumLook],
) -> Result<(), AllocError>
    ensures { OnOk result (out.new.items ≡ out.old.items ++ spec.files_text acts media.now) }
{
    out.extend_from_slice(b"<h2>Files</h2>\n")?;
    push_table(alloc, out, acts, media)
}

// Appends the files, with the room for acts like those in the logs.
fn push_all_files(alloc: Global, out: &mut Vec<u8>, media: &[MediumLook]) -> Result<(), AllocError>
    ensures { OnOk result (out.new.items ≡ out.old.items ++ spec.files_text (tally_of media.now).acts media.now) }
{
    push_files(alloc, out, tally_of(media).acts, media)
}

// The objects that a page shows, and how many more are chosen.
#[derive(Drop)]
struct Picked {
    rows: Vec<ObjectRow>,
    left: u64,
}

// The first of the objects that are chosen, with their versions.
fn pick(alloc: Global, choice: &Choice, media: &[MediumLook]) -> Result<Picked, AllocError>
    ensures rows { IfOk result (λ picked. picked.rows.items ≡ rows_of choice.now media.now) }
    ensures left { IfOk result (λ picked. picked.left ≡ objects_left choice.now media.now) }
{
    let mut objects = chosen(alloc, choice, media)?;
    let left = objects.len().saturating_sub(MOST_OBJECTS) as u64;
    objects.truncate(MOST_OBJECTS);
    let rows = rows_in(alloc, choice, media, MOST_VERSIONS, objects.as_slice())?;
    Ok(Picked { rows, left })
}

// Appends what stands first: what is wrong, the counts and the current values.
fn push_first(
    alloc: Global,
    out: &mut Vec<u8>,
    shown: &Shown,
    media: &[MediumLook],
    picked: &Picked,
) -> Result<(), AllocError>
    ensures { OnOk result (out.new.items ≡ out.old.items ++
        spec.first_text (parts_of shown.now) media.now picked.now.rows.items picked.now.left) }
{
    push_wrong(alloc, out, media)?;
    push_counts(alloc, out, media)?;
    push_values(alloc, out, shown, picked.rows.as_slice())?;
    push_left(alloc, out, picked.left)
}

// Appends the attempts, the histories and the files.
fn push_rest(
    alloc: Global,
    out: &mut Vec<u8>,
    shown: &Shown,
    media: &[MediumLook],
    rows: &[ObjectRow],
) -> Result<(), AllocError>
    ensures { OnOk result (out.new.items ≡ out.old.items ++ spec.rest_text (parts_of shown.now) media.now rows.now) }
{
    push_attempts(alloc, out, shown, media)?;
    push_histories(alloc, out, shown, rows)?;
    push_all_files(alloc, out, media)?;
    out.extend_from_slice(b"</body></html>\n")
}

/// The page of a folder with this name, by what its media hold. Media of one node stand in the order of
/// their volumes.
///
/// It shows the first 200 of the objects that are chosen, and 2,000 versions of them at most.
pub fn page_of(
    alloc: Global,
    name: &[u8],
    choice: &Choice,
    media: &[MediumLook],
) -> Result<Bytes, AllocError>
    ensures { IfOk result (λ page. page ≡ spec.folder_page name.now choice.now media.now) }
{
    let picked = pick(alloc, choice, media)?;
    let shown = shown_of(alloc, choice, media, picked.rows.as_slice())?;
    let mut out = Vec::new(alloc);
    push_head(alloc, &mut out, name)?;
    push_first(alloc, &mut out, &shown, media, &picked)?;
    push_rest(alloc, &mut out, &shown, media, picked.rows.as_slice())?;
    Ok(Bytes::of(out))
}
