//! The media of a plan's nodes are opened, and given back.
ghost use Rattle.std.specs.Prelude.{◌≡◌, ◌≤◌, [], map, vec_len, vec_capacity, slice_get, true, false, All, Some};
ghost use Rattle.std.specs.List.{AllZip};
ghost use Rattle.run_media.specs.Media.{IsUsable};
ghost use Rattle.run_media.specs.Openings.{HasOpened, IsOpen, medium_in};

use crate::openings::Opening;
use medium_port::Medium;
use pseudo_time::DownCause;
use std::alloc::Global;
use version_store::Store;

/// Opens a medium, unless it is missing.
pub fn open_one<M: Medium>(alloc: Global, medium: Option<M>) -> Opening<M>
    requires usable { IsUsable M.Medium medium }
    ensures { HasOpened M.Medium medium result }
{
    let Some(medium) = medium else {
        return Opening::Shut(None, DownCause::Medium);
    };
    match Store::open(alloc, medium) {
        Ok((store, effects)) => Opening::Open(store, effects),
        Err((medium, fault)) => match fault.down_cause() {
            Some(cause) => Opening::Shut(Some(medium), cause),
            None => Opening::Wanting(medium),
        },
    }
}

/// Opens the media, in their order. `openings` has room for as many. Takes no memory for its lists, and
/// leaves the emptied list of media its room.
pub fn open_all<M: Medium>(
    alloc: Global,
    media: Vec<Option<M>>,
    openings: Vec<Opening<M>>,
) -> (Vec<Option<M>>, Vec<Opening<M>>)
    requires usable { All (IsUsable M.Medium) media.items }
    requires empty { openings.items ≡ [] }
    requires room { vec_len media ≤ vec_capacity openings }
    ensures opened { AllZip (HasOpened M.Medium) media.items result.1.items }
    ensures emptied { (result.0.items ≡ []) × (vec_capacity result.0 ≡ vec_capacity media) }
    ensures count { vec_len result.1 ≡ vec_len media }
    ensures room { vec_capacity result.1 ≡ vec_capacity openings }
{
    let mut media = media;
    let Some(medium) = media.pop() else {
        return (media, openings);
    };
    let (media, mut openings) = open_all(alloc, media, openings);
    openings.push_reserved(open_one(alloc, medium));
    (media, openings)
}

/// Gives the media back to their places, in an emptied list that has room for them.
pub fn give_back<M: Medium>(media: Vec<Option<M>>, openings: Vec<Opening<M>>) -> Vec<Option<M>>
    requires empty { media.items ≡ [] }
    requires room { vec_len openings ≤ vec_capacity media }
    ensures back { result.items ≡ map medium_in openings.items }
    ensures count { vec_len result ≡ vec_len openings }
    ensures room { vec_capacity result ≡ vec_capacity media }
{
    let mut openings = openings;
    let Some(opening) = openings.pop() else {
        return media;
    };
    let mut media = give_back(media, openings);
    media.push_reserved(opening.release());
    media
}

/// Whether each node was opened.
pub fn are_open<M: Medium>(openings: &[Opening<M>]) -> bool
    ensures open { result ≡ true → All IsOpen openings.now }
    ensures shut { result ≡ false → (place : _) × (opening : _) × (slice_get openings.now place ≡ Some opening) ×
        (IsOpen opening → ⊥) }
{
    for opening in openings {
        match opening {
            Opening::Open(_, _) => {}
            _ => return false,
        }
    }
    true
}
