//! The files of a folder, opened for reading alone.
ghost use Rattle.std.specs.Prelude.{◌≡◌, ◌≢◌, ◌≤◌, [], IfOk, IfSome};

use crate::file_names::{name_of, path_of};
use crate::read_media::ReadMedium;
use crate::readings::look_at;
use folder_look::{MediumLook, MediumState};
use pseudo_time::NodeKind;
use std::alloc::{AllocError, Global};
use std::fs::{self, File};
use std::io::ErrorKind;
use std::rt::Files;
use value_form::Items;

const MOST_PAGES: u64 = 1_048_576;

/// A medium that can't be read.
pub fn shut(alloc: Global, kind: NodeKind, number: u8, volume: u32) -> MediumLook
    ensures state { (result.state ≡ MediumState.Shut) × (result.log ≡ []) }
    ensures name { (result.kind ≡ kind) × (result.number ≡ number) × (result.volume ≡ volume) }
{
    MediumLook {
        kind,
        number,
        volume,
        pages: 0,
        gated: 0,
        spoiled: Items::of(Vec::new(alloc)),
        state: MediumState::Shut,
        log: Items::of(Vec::new(alloc)),
    }
}

// The number of whole pages of a regular file. None where it has none, or too many.
fn pages_of(file: &File) -> Option<u32>
    ensures { IfSome result (λ n. (1 ≤ n) × (n ≤ 1048576)) }
{
    let Ok(data) = file.metadata() else {
        return None;
    };
    if !data.is_file() {
        return None;
    }
    let pages = data.len() / 4096;
    if pages == 0 || pages > MOST_PAGES {
        return None;
    }
    Some(pages as u32)
}

// What the regular file of this medium holds.
fn look_into(
    alloc: Global,
    files: &impl Files<File = File>,
    path: &str,
    kind: NodeKind,
    number: u8,
    volume: u32,
) -> Result<MediumLook, AllocError>
    ensures name { IfOk result (λ look. (look.kind ≡ kind) × (look.number ≡ number) × (look.volume ≡ volume)) }
    ensures no_log { IfOk result (λ look. look.state ≢ MediumState.Whole → look.log ≡ []) }
{
    let Ok(file) = fs::open(files, path) else {
        return Ok(shut(alloc, kind, number, volume));
    };
    match pages_of(&file) {
        None => Ok(shut(alloc, kind, number, volume)),
        Some(pages) => {
            let medium = ReadMedium::new(file, pages);
            let (look, _failed) = look_at(alloc, kind, number, volume, medium)?;
            Ok(look)
        }
    }
}

/// What the file of this medium holds. None if there is no such file. The file is opened for reading
/// alone: it is never made, and never made longer. What is no regular file is never opened, since the
/// system lets the opening of a FIFO wait for ever.
pub fn look_in(
    alloc: Global,
    files: &impl Files<File = File>,
    folder: &str,
    kind: NodeKind,
    number: u8,
    volume: u32,
) -> Result<Option<MediumLook>, AllocError>
    ensures name { IfOk result (λ found. IfSome found (λ look. (look.kind ≡ kind) × (look.number ≡ number) ×
        (look.volume ≡ volume))) }
    ensures no_log { IfOk result (λ found. IfSome found (λ look. look.state ≢ MediumState.Whole → look.log ≡ [])) }
{
    let name = name_of(alloc, kind, number, volume)?;
    let path = path_of(alloc, folder, name.as_str())?;
    match fs::symlink_metadata(files, path.as_str()) {
        Err(error) if error.kind() == ErrorKind::NotFound => Ok(None),
        Err(_) => Ok(Some(shut(alloc, kind, number, volume))),
        Ok(data) => {
            if !data.is_file() {
                return Ok(Some(shut(alloc, kind, number, volume)));
            }
            Ok(Some(look_into(alloc, files, path.as_str(), kind, number, volume)?))
        }
    }
}
