//! A volume that is missing below one that is there is refused.
use crate::file_kinds::is_there;
use crate::file_names::path_of;
use crate::refusals::Refusal;
use crate::shelves::MediumName;
use crate::wanted_files::Wanted;
use pseudo_time::NodeKind;
use std::fmt::{self, Display, Formatter};
use std::rt::Files;

// Volumes below this number follow one another: each is made when the one before it isn't blank.
const ORDERED_VOLUMES: u32 = 1000;

// A volume of a repository that is missing or blank, though the file of a later one is there.
#[derive(Clone, Copy)]
pub struct Lost {
    number: u8,
    volume: u32,
    // Whether its file is there, blank.
    is_there: bool,
    later: u32,
}

impl Display for Lost {
    fn fmt<W: fmt::Write>(&self, f: &mut Formatter<W>) -> fmt::Result {
        let how = if self.is_there { "blank" } else { "missing" };
        write!(
            f,
            "repository-{}-{} is {}, and repository-{}-{} is there",
            self.number, self.volume, how, self.number, self.later
        )
    }
}

// The first of the next three volumes whose file is there.
fn later_volume(files: &impl Files, wanted: &Wanted) -> Result<Option<u32>, Refusal> {
    let name = wanted.name;
    for step in 1..=3u32 {
        let volume = name.volume.saturating_add(step);
        let later = MediumName {
            kind: name.kind,
            number: name.number,
            volume,
        };
        let path = path_of(wanted.alloc, wanted.folder, later)?;
        if volume < ORDERED_VOLUMES && is_there(files, path.as_str())? {
            return Ok(Some(volume));
        }
    }
    Ok(None)
}

// Refuses a volume of a repository, which is missing or blank, if the file of a later one is there.
pub fn refuse_lost(files: &impl Files, wanted: &Wanted, is_there: bool) -> Result<(), Refusal> {
    let name = wanted.name;
    match name.kind {
        NodeKind::Broker => Ok(()),
        NodeKind::Repository => match later_volume(files, wanted)? {
            None => Ok(()),
            Some(later) => Err(Refusal::Lost(Lost {
                number: name.number,
                volume: name.volume,
                is_there,
                later,
            })),
        },
    }
}
