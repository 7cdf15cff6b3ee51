//! The files of a folder: what each is for, whether it could be read, and its pages.
ghost use Rattle.std.specs.Prelude.{◌≡◌, ◌++◌, ◌≤◌, ◌<◌, ◌-◌, ◌*◌, ◌/◌, min, OnOk};
ghost use Rattle.std.specs.List.{flat_map};
ghost use Rattle.folder_look.specs.MediaText as spec;
ghost use Rattle.report_writer.specs.Reports.{kind_word};

use crate::looks::{MediumLook, MediumState};
use crate::parts::{Part, push_parts};
use pseudo_time::NodeKind;
use std::alloc::{AllocError, Global};

// Appends the word of a kind of nodes.
fn push_kind_word(out: &mut Vec<u8>, kind: NodeKind) -> Result<(), AllocError>
    ensures { OnOk result (out.new.items ≡ out.old.items ++ kind_word kind) }
{
    match kind {
        NodeKind::Repository => out.extend_from_slice(b"repository "),
        NodeKind::Broker => out.extend_from_slice(b"broker "),
    }
}

/// Appends the name of a medium.
pub fn push_name(alloc: Global, out: &mut Vec<u8>, medium: &MediumLook) -> Result<(), AllocError>
    ensures { OnOk result (out.new.items ≡ out.old.items ++ spec.name_text medium.now) }
{
    push_kind_word(out, medium.kind)?;
    push_parts(
        alloc,
        out,
        &[
            Part::Number(medium.number as u64),
            Part::Words(b", volume "),
            Part::Number(medium.volume as u64),
        ],
    )
}

// Appends whether a medium could be read.
fn push_state(alloc: Global, out: &mut Vec<u8>, state: MediumState) -> Result<(), AllocError>
    ensures { OnOk result (out.new.items ≡ out.old.items ++ spec.state_text state) }
{
    match state {
        MediumState::Whole => out.extend_from_slice(b"<td class=\"whole\">whole"),
        MediumState::Damaged { page } => push_parts(
            alloc,
            out,
            &[
                Part::Words(b"<td class=\"damaged\">damaged at page "),
                Part::Number(page as u64),
            ],
        ),
        MediumState::Shut => out.extend_from_slice(b"<td class=\"shut\">can't be read"),
    }
}

// Appends what is wrong with a medium.
fn push_fault(alloc: Global, out: &mut Vec<u8>, state: MediumState) -> Result<(), AllocError>
    ensures { OnOk result (out.new.items ≡ out.old.items ++ spec.fault_text state) }
{
    match state {
        MediumState::Whole => Ok(()),
        MediumState::Damaged { page } => push_parts(
            alloc,
            out,
            &[
                Part::Words(b" is damaged at page "),
                Part::Number(page as u64),
                Part::Words(b": nothing of its log is shown"),
            ],
        ),
        MediumState::Shut => {
            out.extend_from_slice(b" can't be read: nothing of its log is shown")
        }
    }
}

// Whether nothing is wrong.
fn is_whole(state: MediumState) -> bool
    ensures { result ≡ spec.is_whole state }
{
    match state {
        MediumState::Whole => true,
        MediumState::Damaged { .. } => false,
        MediumState::Shut => false,
    }
}

// Says of a medium what is wrong with it.
fn push_wrong(alloc: Global, out: &mut Vec<u8>, medium: &MediumLook) -> Result<(), AllocError>
    ensures { OnOk result (out.new.items ≡ out.old.items ++ spec.wrong_text medium.now) }
{
    out.extend_from_slice(b"<p class=\"banner\">")?;
    push_name(alloc, out, medium)?;
    push_fault(alloc, out, medium.state)?;
    out.extend_from_slice(b"</p>\n")
}

// Names a medium that can't be shown.
fn push_banner(alloc: Global, out: &mut Vec<u8>, medium: &MediumLook) -> Result<(), AllocError>
    ensures { OnOk result (out.new.items ≡ out.old.items ++ spec.banner_text medium.now) }
{
    if is_whole(medium.state) {
        Ok(())
    } else {
        push_wrong(alloc, out, medium)
    }
}

/// Names the media that can't be shown.
pub fn push_banners(
    alloc: Global,
    out: &mut Vec<u8>,
    media: &[MediumLook],
) -> Result<(), AllocError>
    ensures { OnOk result (out.new.items ≡ out.old.items ++ flat_map spec.banner_text media.now) }
{
    for medium in media {
        push_banner(alloc, out, medium)?;
    }
    Ok(())
}

// Appends what a volume of a repository is for.
fn push_volume_role(out: &mut Vec<u8>, volume: u32) -> Result<(), AllocError>
    ensures { OnOk result (out.new.items ≡ out.old.items ++ spec.volume_role volume) }
{
    if volume < 1000 {
        out.extend_from_slice(b"log")
    } else if volume == 1001 {
        out.extend_from_slice(b"totals by count")
    } else if volume == 1002 {
        out.extend_from_slice(b"totals by sum")
    } else if volume == 1003 {
        out.extend_from_slice(b"totals by last")
    } else if volume == 1010 {
        out.extend_from_slice(b"votes")
    } else {
        out.extend_from_slice(b"other")
    }
}

// Appends what a medium is for.
fn push_role(out: &mut Vec<u8>, kind: NodeKind, volume: u32) -> Result<(), AllocError>
    ensures { OnOk result (out.new.items ≡ out.old.items ++ spec.role_text kind volume) }
{
    match kind {
        NodeKind::Repository => push_volume_role(out, volume),
        NodeKind::Broker => out.extend_from_slice(b"log"),
    }
}

// How many pages are gated or spoiled.
fn written(medium: &MediumLook) -> u64
    ensures { result ≡ spec.written medium.now }
{
    medium.gated as u64 + medium.spoiled.as_slice().len() as u64
}

// How many more acts of the usual size the blank pages take.
fn room(acts: u64, written: u64, pages: u64) -> u64
    requires some { 1 ≤ written }
    requires most { pages < 4294967296 }
    ensures { result ≡ (pages - written) * min acts 1000000000 / written }
{
    pages.saturating_sub(written) * acts.min(1_000_000_000) / written
}

// Appends how many more acts a medium takes, where acts show how large one is.
fn push_room(
    alloc: Global,
    out: &mut Vec<u8>,
    acts: u64,
    medium: &MediumLook,
) -> Result<(), AllocError>
    ensures { OnOk result (out.new.items ≡ out.old.items ++ spec.room_text acts medium.now) }
{
    let written = written(medium);
    if acts == 0 || written == 0 || medium.volume != 0 {
        return Ok(());
    }
    let room = room(acts, written, medium.pages as u64);
    push_parts(
        alloc,
        out,
        &[
            Part::Words(b"some "),
            Part::Number(room),
            Part::Words(b" acts"),
        ],
    )
}

// Appends how many pages are spoiled.
fn push_spoiled_count(alloc: Global, out: &mut Vec<u8>, count: u64) -> Result<(), AllocError>
    ensures { OnOk result (out.new.items ≡ out.old.items ++ spec.spoiled_text count) }
{
    if count == 0 {
        return Ok(());
    }
    push_parts(
        alloc,
        out,
        &[Part::Words(b", spoiled "), Part::Number(count)],
    )
}

// Appends how many pages of each kind a medium has.
fn push_counts(alloc: Global, out: &mut Vec<u8>, medium: &MediumLook) -> Result<(), AllocError>
    ensures { OnOk result (out.new.items ≡ out.old.items ++ spec.counts_text medium.now) }
{
    push_parts(
        alloc,
        out,
        &[
            Part::Words(b"</td><td>"),
            Part::Number(medium.log.as_slice().len() as u64),
            Part::Words(b"</td><td>"),
            Part::Number(written(medium)),
            Part::Words(b" of "),
            Part::Number(medium.pages as u64),
        ],
    )?;
    push_spoiled_count(alloc, out, medium.spoiled.as_slice().len() as u64)
}

// Appends a page of a strip.
fn push_page(alloc: Global, out: &mut Vec<u8>, class: &[u8], page: u32) -> Result<(), AllocError>
    ensures { OnOk result (out.new.items ≡ out.old.items ++ spec.strip_page class.now page) }
{
    out.extend_from_slice(b"<i class=\"")?;
    out.extend_from_slice(class)?;
    push_parts(
        alloc,
        out,
        &[
            Part::Words(b"\" style=\"--a:"),
            Part::Number(page as u64),
            Part::Words(b"\"></i>"),
        ],
    )
}

// Appends the spoiled pages of a strip.
fn push_spoiled(alloc: Global, out: &mut Vec<u8>, pages: &[u32]) -> Result<(), AllocError>
    ensures { OnOk result (out.new.items ≡ out.old.items ++ flat_map spec.spoiled_page pages.now) }
{
    for page in pages {
        push_page(alloc, out, b"spoiled", *page)?;
    }
    Ok(())
}

// Appends the damaged page of a strip, if there is one.
fn push_damaged(alloc: Global, out: &mut Vec<u8>, state: MediumState) -> Result<(), AllocError>
    ensures { OnOk result (out.new.items ≡ out.old.items ++ spec.damaged_page state) }
{
    match state {
        MediumState::Whole => Ok(()),
        MediumState::Damaged { page } => push_page(alloc, out, b"damaged", page),
        MediumState::Shut => Ok(()),
    }
}

// Begins a strip, with the pages that are written.
fn push_strip_head(alloc: Global, out: &mut Vec<u8>, medium: &MediumLook) -> Result<(), AllocError>
    ensures { OnOk result (out.new.items ≡ out.old.items ++ spec.strip_head medium.now) }
{
    push_parts(
        alloc,
        out,
        &[
            Part::Words(b"<span class=\"bars strip\" style=\"--n:"),
            Part::Number(medium.pages as u64),
            Part::Words(b"\"><i class=\"gated\" style=\"--w:"),
            Part::Number(written(medium)),
            Part::Words(b"\"></i>"),
        ],
    )
}

// Appends the pages of a medium in order.
fn push_strip(alloc: Global, out: &mut Vec<u8>, medium: &MediumLook) -> Result<(), AllocError>
    ensures { OnOk result (out.new.items ≡ out.old.items ++ spec.strip_text medium.now) }
{
    push_strip_head(alloc, out, medium)?;
    push_spoiled(alloc, out, medium.spoiled.as_slice())?;
    push_damaged(alloc, out, medium.state)?;
    out.extend_from_slice(b"</span>")
}

// Appends the pages of a medium, and how many more acts it takes.
fn push_pages(
    alloc: Global,
    out: &mut Vec<u8>,
    acts: u64,
    medium: &MediumLook,
) -> Result<(), AllocError>
    ensures { OnOk result (out.new.items ≡ out.old.items ++ spec.medium_pages acts medium.now) }
{
    push_counts(alloc, out, medium)?;
    push_strip(alloc, out, medium)?;
    out.extend_from_slice(b"</td><td>")?;
    push_room(alloc, out, acts, medium)?;
    out.extend_from_slice(b"</td></tr>\n")
}

// Appends a row for a medium.
fn push_medium(
    alloc: Global,
    out: &mut Vec<u8>,
    acts: u64,
    medium: &MediumLook,
) -> Result<(), AllocError>
    ensures { OnOk result (out.new.items ≡ out.old.items ++ spec.medium_text acts medium.now) }
{
    out.extend_from_slice(b"<tr><th scope=\"row\">")?;
    push_name(alloc, out, medium)?;
    out.extend_from_slice(b"</th><td>")?;
    push_role(out, medium.kind, medium.volume)?;
    out.extend_from_slice(b"</td>")?;
    push_state(alloc, out, medium.state)?;
    push_pages(alloc, out, acts, medium)
}

// Appends the rows of media.
fn push_media(
    alloc: Global,
    out: &mut Vec<u8>,
    acts: u64,
    media: &[MediumLook],
) -> Result<(), AllocError>
    ensures { OnOk result (out.new.items ≡ out.old.items ++ flat_map (spec.medium_text acts) media.now) }
{
    for medium in media {
        push_medium(alloc, out, acts, medium)?;
    }
    Ok(())
}

/// Appends the media in order, where their brokers began so many acts.
pub fn push_table(
    alloc: Global,
    out: &mut Vec<u8>,
    acts: u64,
    media: &[MediumLook],
) -> Result<(), AllocError>
    ensures { OnOk result (out.new.items ≡ out.old.items ++ spec.media_table acts media.now) }
{
    out.extend_from_slice(
        b"<table><thead><tr><th scope=\"col\">file</th><th scope=\"col\">role</th>\
          <th scope=\"col\">state</th><th scope=\"col\">effects</th>\
          <th scope=\"col\">pages written</th><th scope=\"col\">room for</th></tr></thead><tbody>\n",
    )?;
    push_media(alloc, out, acts, media)?;
    out.extend_from_slice(b"</tbody></table>\n")
}
