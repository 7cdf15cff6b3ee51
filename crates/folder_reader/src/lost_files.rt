//! Files that a folder has lost: a volume is missing below one that is there.

use crate::file_names::{name_of, path_of};
use folder_look::{MediumLook, MediumState};
use pseudo_time::NodeKind;
use std::alloc::{AllocError, Global};
use std::fs;
use std::rt::Files;

// Volumes below this number follow one another: each is made when the one before it isn't blank.
const ORDERED_VOLUMES: u32 = 1000;

// Whether the folder has an entry with this name, of any kind.
fn is_there(
    alloc: Global,
    files: &impl Files,
    folder: &str,
    name: &str,
) -> Result<bool, AllocError> {
    let path = path_of(alloc, folder, name)?;
    Ok(fs::symlink_metadata(files, path.as_str()).is_ok())
}

/// The name of the first of the next three volumes whose file is there. None follows one of a broker.
pub fn later_name(
    alloc: Global,
    files: &impl Files,
    folder: &str,
    kind: NodeKind,
    number: u8,
    volume: u32,
) -> Result<Option<String>, AllocError> {
    for step in 1..=3u32 {
        let later = volume.saturating_add(step);
        let name = name_of(alloc, kind, number, later)?;
        if later < ORDERED_VOLUMES
            && kind == NodeKind::Repository
            && is_there(alloc, files, folder, name.as_str())?
        {
            return Ok(Some(name));
        }
    }
    Ok(None)
}

// Whether nothing was written to a volume after the first one.
fn is_blank(look: &MediumLook) -> bool {
    match look.state {
        MediumState::Whole => {
            look.volume > 0 && look.gated == 0 && look.spoiled.as_slice().is_empty()
        }
        MediumState::Damaged { .. } | MediumState::Shut => false,
    }
}

fn is_shut(look: &MediumLook) -> bool {
    match look.state {
        MediumState::Shut => true,
        MediumState::Whole | MediumState::Damaged { .. } => false,
    }
}

/// What a person should know of a medium before the page is read: that it can't be read, or that it is
/// missing or blank though a later volume's file is there. None if nothing is wrong with it.
pub fn warning_of(
    alloc: Global,
    files: &impl Files,
    folder: &str,
    look: &MediumLook,
) -> Result<Option<String>, AllocError> {
    if !is_shut(look) && !is_blank(look) {
        return Ok(None);
    }
    let name = name_of(alloc, look.kind, look.number, look.volume)?;
    let is_missing = !is_there(alloc, files, folder, name.as_str())?;
    if is_shut(look) && !is_missing {
        let text = format!(in alloc; "{} is no medium that can be read", name.as_str())?;
        return Ok(Some(text));
    }
    let how = if is_missing { "missing" } else { "blank" };
    match later_name(alloc, files, folder, look.kind, look.number, look.volume)? {
        None => Ok(None),
        Some(later) => {
            let text = format!(in alloc;
                "{} is {}, and {} is there",
                name.as_str(),
                how,
                later.as_str()
            )?;
            Ok(Some(text))
        }
    }
}
