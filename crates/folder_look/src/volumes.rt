//! The volumes of a repository among the media of a folder.
ghost use Rattle.std.specs.Prelude.{◌≡◌, ◌&&◌, nat_le};
ghost use Rattle.forward_copy.specs.Currents.{current, log_at};
ghost use Rattle.folder_look.specs.Objects.{is_volume, logs_of};
ghost use Rattle.folder_look.specs.Volumes as spec;

use crate::looks::MediumLook;
use effect_form::Effect;
use forward_copy::has_whole;
use pseudo_time::NodeKind;

/// Whether a node is a repository.
pub fn is_repository(kind: NodeKind) -> bool
    ensures { result ≡ spec.is_repository kind }
{
    match kind {
        NodeKind::Repository => true,
        NodeKind::Broker => false,
    }
}

/// Whether it is a volume of runs: those from 1000 on have totals and votes.
pub fn is_log(medium: &MediumLook) -> bool
    ensures { result ≡ spec.is_log medium.now }
{
    is_repository(medium.kind) && medium.volume < 1000
}

// Whether it is a volume of the repository, and neither totals nor votes.
fn is_volume(repository: u8, medium: &MediumLook) -> bool
    ensures { result ≡ is_volume repository medium.now }
{
    is_log(medium) && medium.number == repository
}

/// Whether it is a volume of the repository, and so many come before it, which aren't more than `last`.
pub fn is_early(repository: u8, medium: &MediumLook, volumes: usize, last: usize) -> bool
    ensures { result ≡ nat_le volumes last && is_volume repository medium.now }
{
    volumes <= last && is_volume(repository, medium)
}

/// Which of the repository's volumes is current.
pub fn current_of(repository: u8, media: &[MediumLook]) -> usize
    ensures { result ≡ current (logs_of repository media.now) }
{
    let mut found = 0;
    let mut volume = 0;
    for medium in media {
        if is_volume(repository, medium) {
            if has_whole(medium.log.as_slice()) {
                found = volume;
            }
            volume += 1;
        }
    }
    found
}

/// The log of a volume of the repository.
pub fn log_of(repository: u8, media: &[MediumLook], volume: usize) -> &[Effect]
    ensures { result.now ≡ log_at (logs_of repository media.now) volume }
{
    let mut left = volume;
    for medium in media {
        if is_volume(repository, medium) {
            if left == 0 {
                return medium.log.as_slice();
            }
            left -= 1;
        }
    }
    &[]
}
