//! How long a medium's file is, and when it grows.
ghost use Rattle.std.specs.Prelude.{◌≤◌, IfOk};

use crate::lost_files::refuse_lost;
use crate::refusals::Refusal;
use crate::wanted_files::Wanted;
use std::fs::{self, File};
use std::io::{self, ErrorKind};
use std::os::unix::fs::FileExt;
use std::rt::Files;

/// The pages of a medium that a shelf over files makes, if the volume before it has no more.
pub const NEW_PAGES: u32 = 4096;

pub const MOST_PAGES: u32 = 1_048_576;

// The bytes of so many pages.
fn length_of(pages: u32) -> u64 {
    pages as u64 * 4096
}

// Whether a page of the file reads 0 in every byte.
fn is_blank(file: &File, page: u32) -> io::Result<bool> {
    let mut bytes = [0u8; 4096];
    file.read_exact_at(&mut bytes, length_of(page))?;
    Ok(bytes.iter().all(|byte| *byte == 0))
}

// Whether the file ends where a page of it ends. One that doesn't is never lengthened: the bytes after
// its last whole page would be read as a page.
fn ends_with_a_page(file: &File, pages: u32) -> io::Result<bool> {
    Ok(file.metadata()?.len() == length_of(pages))
}

// Whether less than half of the file's pages are blank. A log fills them in order, so the page in the
// middle tells.
fn is_half_full(file: &File, pages: u32) -> io::Result<bool> {
    Ok(!is_blank(file, pages / 2)?)
}

// Whether the file of a medium with so many pages grows when it is taken again.
pub fn grows_next(file: &File, pages: u32) -> bool {
    match (ends_with_a_page(file, pages), is_half_full(file, pages)) {
        (Ok(ends), Ok(half)) => pages < MOST_PAGES && ends && half,
        _ => false,
    }
}

// How many pages a file of so many is to have.
fn pages_wanted(file: &File, pages: u32, least: u32) -> io::Result<u32>
    requires most { pages ≤ 1048576 }
    ensures { IfOk result (λ n. n ≤ 1048576) }
{
    let grown = if is_half_full(file, pages)? {
        pages * 2
    } else {
        pages
    };
    Ok(grown.max(least).min(MOST_PAGES))
}

// Lengthens a file that is to have more pages. One that can't be longer, as on a disk that has no room
// for it, stays as it is.
fn lengthen(file: &File, pages: u32, least: u32) -> io::Result<u32>
    requires some { 1 ≤ pages }
    requires most { pages ≤ 1048576 }
    ensures { IfOk result (λ n. (1 ≤ n) × (n ≤ 1048576)) }
{
    let wanted = pages_wanted(file, pages, least)?;
    if wanted <= pages || !ends_with_a_page(file, pages)? {
        return Ok(pages);
    }
    if file.set_len(length_of(wanted)).is_err() {
        return Ok(pages);
    }
    file.sync_all()?;
    Ok(wanted)
}

// Syncs a folder, so that a crash leaves the names in it. One that may not be read has no new ones.
fn sync_folder(files: &impl Files<File = File>, folder: &str) -> io::Result<()> {
    match fs::open(files, folder) {
        Ok(opened) => opened.sync_all(),
        Err(error) if error.kind() == ErrorKind::PermissionDenied => Ok(()),
        Err(error) => Err(error),
    }
}

// Syncs the folder and each that it lies in, up to where its path begins.
fn sync_folders(files: &impl Files<File = File>, folder: &str) -> io::Result<()> {
    sync_folder(files, folder)?;
    for end in 1..folder.len() {
        if let Some((outer, rest)) = folder.split_at_checked(end) {
            if rest.starts_with('/') {
                sync_folder(files, outer)?;
            }
        }
    }
    sync_folder(files, if folder.starts_with('/') { "/" } else { "." })
}

// The length of a file in whole pages, after it was made if it is empty.
fn whole_pages(file: &File) -> Result<u32, Refusal>
    ensures { IfOk result (λ pages. (1 ≤ pages) × (pages ≤ 1048576)) }
{
    let mut length = file.metadata()?.len();
    if length == 0 {
        length = length_of(NEW_PAGES);
        file.set_len(length)?;
    }
    let pages = length / 4096;
    if pages == 0 || pages > MOST_PAGES as u64 {
        return Err(Refusal::Length(length));
    }
    Ok(pages as u32)
}

// The length of a file in pages, after it was made or lengthened. If no opening before this one can
// be known to have come as far, the file and its folders are synced. A file for a look isn't empty,
// and stays as it is.
pub fn measure(
    files: &impl Files<File = File>,
    wanted: &Wanted,
    file: &File,
) -> Result<u32, Refusal>
    ensures { IfOk result (λ pages. (1 ≤ pages) × (pages ≤ 1048576)) }
{
    let mut pages = whole_pages(file)?;
    let is_untouched = is_blank(file, 0)?;
    // The first volume may be blank while the second isn't: a retirement may have nothing to carry.
    if is_untouched && wanted.name.volume > 0 {
        refuse_lost(files, wanted, true)?;
    }
    if wanted.makes {
        pages = lengthen(file, pages, wanted.least)?;
    }
    if is_untouched {
        file.sync_all()?;
        sync_folders(files, wanted.folder)?;
    }
    Ok(pages)
}
