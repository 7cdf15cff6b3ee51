//! The members' media are taken from a shelf, and handed back under their names.
ghost use Rattle.std.specs.Prelude.{◌≡◌, ◌≤◌, [], vec_capacity};
ghost use Rattle.run_volumes.specs.Kept.{kept_under};
ghost use Rattle.run_volumes.specs.Shelves.{WereTaken, shelf_sight};
ghost use Rattle.votes_command.specs.Members.{in_order, member_names};

use medium_port::{Medium, Shelf};
use pseudo_time::NodeId;
use run_volumes::{Kept, keep_one, take_volume};
use vote_call::MemberMedia;

/// The volume of a repository on which it votes.
pub const VOTES_VOLUME: u32 = 1_010;

/// Takes the members' media, in their order. None where the shelf gives none.
pub fn take_members<S: Shelf>(shelf: &mut S) -> MemberMedia<S::Medium>
    ensures { WereTaken S.Medium.Medium (shelf_sight S.Shelf shelf.old) (shelf_sight S.Shelf shelf.new) member_names
        (in_order result) }
{
    let first = take_volume(shelf, NodeId::repository(1), VOTES_VOLUME);
    let second = take_volume(shelf, NodeId::repository(2), VOTES_VOLUME);
    let third = take_volume(shelf, NodeId::repository(3), VOTES_VOLUME);
    MemberMedia {
        first,
        second,
        third,
    }
}

/// The members' media under their names. The empty list has room for them.
pub fn keep_members<M: Medium>(media: MemberMedia<M>, kept: Vec<Kept<M>>) -> Vec<Kept<M>>
    requires empty { kept.items ≡ [] }
    requires room { 3 ≤ vec_capacity kept }
    ensures { result.items ≡ kept_under member_names (in_order media) }
{
    let MemberMedia {
        first,
        second,
        third,
    } = media;
    let kept = keep_one(NodeId::repository(1), VOTES_VOLUME, first, kept);
    let kept = keep_one(NodeId::repository(2), VOTES_VOLUME, second, kept);
    keep_one(NodeId::repository(3), VOTES_VOLUME, third, kept)
}
