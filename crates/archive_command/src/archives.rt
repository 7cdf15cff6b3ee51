//! The archive of a repository, by its volumes as they were opened.
ghost use Rattle.std.specs.Prelude.{◌≡◌, ◌≤◌, ◌<◌, ◌+◌, ◌++◌, ◌∷◌, [], IfOk, OnOk, length, map};
ghost use Rattle.repository_log.specs.Logs.{marks};
ghost use Rattle.run_volumes.specs.Openings.{log_in};
ghost use Rattle.run_volumes.specs.Volumes.{logs_of};
ghost use Rattle.archive_command.specs.Archives as spec;

use archive_store::Archive;
use effect_form::Effect;
use forward_copy::has_whole;
use medium_port::Medium;
use object_history::Mark;
use pseudo_time::PseudoTime;
use repository_log::marks_of;
use run_volumes::Opening;
use std::alloc::{AllocError, Global};
use value_form::ObjectId;

/// The archive of a repository's complete volumes, and which volumes they are.
#[derive(Drop)]
pub struct Archived {
    pub archive: Archive,
    pub volumes: Vec<u32>,
}

// The volume's log: one that can't be opened has none.
fn log_of<M: Medium>(opening: &Opening<M>) -> &[Effect]
    ensures { result.now ≡ log_in opening.now }
{
    match opening {
        Opening::Open(_, effects) => effects.as_slice(),
        Opening::Shut(_, _) => &[],
        Opening::Wanting(_) => &[],
    }
}

// Whether a volume with this log is complete.
fn is_complete(volume: usize, log: &[Effect]) -> bool
    ensures { result ≡ spec.is_complete volume log.now }
{
    volume == 0 || has_whole(log)
}

// Adds the volume with this log, if it is complete.
fn add_volume(
    alloc: Global,
    logs: &mut Vec<Vec<Mark>>,
    volumes: &mut Vec<u32>,
    volume: usize,
    log: &[Effect],
) -> Result<(), AllocError>
    requires few { volume < 1000 }
    ensures logs { OnOk result (map (λ m. m.items) logs.new.items ≡ map (λ m. m.items) logs.old.items ++ map
        (λ c. marks c.log) (spec.complete_from volume (log.now ∷ []))) }
    ensures volumes { OnOk result (volumes.new.items ≡ volumes.old.items ++ map (λ c. c.volume)
        (spec.complete_from volume (log.now ∷ []))) }
    ensures first { OnOk result (volume ≡ 0 → 0 < length logs.new.items) }
    ensures more { OnOk result (length logs.old.items ≤ length logs.new.items) }
    ensures one { OnOk result (length logs.new.items ≤ length logs.old.items + 1) }
{
    if is_complete(volume, log) {
        let marks = marks_of(alloc, log)?;
        logs.push(marks)?;
        volumes.push(volume as u32)?;
    }
    Ok(())
}

/// The archive of a repository with these volumes, from volume 0 on.
pub fn archived_of<M: Medium>(
    alloc: Global,
    openings: &[Opening<M>],
) -> Result<Archived, AllocError>
    requires some { 0 < length openings.now }
    requires few { length openings.now ≤ 1000 }
    ensures archive { IfOk result (λ a. a.archive ≡ spec.archive_of (logs_of openings.now)) }
    ensures volumes { IfOk result (λ a. a.volumes.items ≡ spec.volumes_of (logs_of openings.now)) }
{
    let mut logs = Vec::new(alloc);
    let mut volumes = Vec::new(alloc);
    for (volume, opening) in openings.iter().enumerate() {
        let log = log_of(opening);
        add_volume(alloc, &mut logs, &mut volumes, volume, log)?;
    }
    Ok(Archived {
        archive: Archive::of(alloc, logs),
        volumes,
    })
}

/// The number of the last volume that has a put of the object with this start.
pub fn holding_volume(archived: &Archived, object: ObjectId, start: PseudoTime) -> Option<u32>
    ensures { result ≡ spec.holding_volume archived.now.archive archived.now.volumes.items object start }
{
    let Some(place) = archived.archive.holder(object, start) else {
        return None;
    };
    archived.volumes.get(place as usize).copied()
}
