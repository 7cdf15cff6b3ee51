//! The media of a folder.
use crate::file_looks::{look_in, shut};
use crate::lost_files::later_name;
use folder_look::MediumLook;
use pseudo_time::NodeKind;
use std::alloc::{AllocError, AllocFailed, Global};
use std::fs::File;
use std::rt::Files;

/// The greatest number of a node.
const MOST_NODES: u8 = 16;

/// Volumes of runs have a number below this.
const MOST_VOLUMES: u32 = 1000;

/// The volumes of a repository that have its totals by `count`, `sum` and `last`, and its votes.
const OTHER_VOLUMES: [u32; 4] = [1001, 1002, 1003, 1010];

/// Why a folder wasn't read: memory runs out.
#[derive(Clone, Copy)]
pub struct LookFault;

impl From<AllocError> for LookFault {
    fn from(_error: AllocError) -> LookFault {
        LookFault
    }
}

impl<T: Drop> From<AllocFailed<T>> for LookFault {
    fn from(_error: AllocFailed<T>) -> LookFault {
        LookFault
    }
}

// Adds the volumes of a node, up to the first that isn't there. One that isn't, though the file of one
// of the next three is, can't be read.
fn add_node(
    alloc: Global,
    files: &impl Files<File = File>,
    folder: &str,
    kind: NodeKind,
    number: u8,
    media: &mut Vec<MediumLook>,
) -> Result<(), LookFault> {
    for volume in 0..MOST_VOLUMES {
        match look_in(alloc, files, folder, kind, number, volume)? {
            Some(look) => media.push(look)?,
            None => {
                if later_name(alloc, files, folder, kind, number, volume)?.is_none() {
                    return Ok(());
                }
                media.push(shut(alloc, kind, number, volume))?;
            }
        }
    }
    Ok(())
}

// Adds the totals and votes of a repository.
fn add_others(
    alloc: Global,
    files: &impl Files<File = File>,
    folder: &str,
    number: u8,
    media: &mut Vec<MediumLook>,
) -> Result<(), LookFault> {
    for volume in OTHER_VOLUMES {
        if let Some(look) = look_in(alloc, files, folder, NodeKind::Repository, number, volume)? {
            media.push(look)?;
        }
    }
    Ok(())
}

// Adds the repositories, each with its totals and votes after its volumes.
fn add_repositories(
    alloc: Global,
    files: &impl Files<File = File>,
    folder: &str,
    media: &mut Vec<MediumLook>,
) -> Result<(), LookFault> {
    for number in 1..=MOST_NODES {
        add_node(alloc, files, folder, NodeKind::Repository, number, media)?;
        add_others(alloc, files, folder, number, media)?;
    }
    Ok(())
}

// Adds the brokers.
fn add_brokers(
    alloc: Global,
    files: &impl Files<File = File>,
    folder: &str,
    media: &mut Vec<MediumLook>,
) -> Result<(), LookFault> {
    for number in 1..=MOST_NODES {
        add_node(alloc, files, folder, NodeKind::Broker, number, media)?;
    }
    Ok(())
}

/// What the media of a folder hold, the repositories first, each node's volumes in order. A repository's
/// totals and votes come after its volumes.
pub fn media_of(
    alloc: Global,
    files: &impl Files<File = File>,
    folder: &str,
) -> Result<Vec<MediumLook>, LookFault> {
    let mut media = Vec::new(alloc);
    add_repositories(alloc, files, folder, &mut media)?;
    add_brokers(alloc, files, folder, &mut media)?;
    Ok(media)
}
