//! The members' media are opened.
ghost use Rattle.std.specs.Prelude.{◌≡◌};
ghost use Rattle.vote_call.specs.Media.{AreUsable, HaveOpened};

use crate::member_media::MemberMedia;
use medium_port::Medium;
use std::alloc::Global;
use vote_run::{Opening, open_one};

/// What came of opening the three media.
#[derive(Drop)]
pub struct Openings<M: Medium> {
    pub first: Opening<M>,
    pub second: Opening<M>,
    pub third: Opening<M>,
}

/// Opens each of the members' media, unless it is missing.
pub fn open_members<M: Medium>(alloc: Global, media: MemberMedia<M>) -> Openings<M>
    requires { AreUsable M.Medium media }
    ensures { HaveOpened M.Medium media result }
{
    let MemberMedia {
        first,
        second,
        third,
    } = media;
    Openings {
        first: open_one(alloc, first),
        second: open_one(alloc, second),
        third: open_one(alloc, third),
    }
}

impl<M: Medium> Openings<M> {
    ghost use Rattle.vote_call.specs.Media.{given_back};

    /// The media, as they were handed in.
    pub fn release(self) -> MemberMedia<M>
        ensures { result ≡ given_back self }
    {
        let Openings {
            first,
            second,
            third,
        } = self;
        MemberMedia {
            first: first.release(),
            second: second.release(),
            third: third.release(),
        }
    }
}
