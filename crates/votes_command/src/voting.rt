//! The call.
ghost use Rattle.std.specs.Prelude.{◌⊎◌, ◌≤◌, length};
ghost use Rattle.pseudo_time.specs.Lists.{Every};
ghost use Rattle.run_volumes.specs.Shelves.{shelf_sight};
ghost use Rattle.vote_call.specs.Ends.{tellers};
ghost use Rattle.vote_form.specs.Inputs.{IsPoll};
ghost use Rattle.votes_command.specs.Votes.{TookNothing, VotesOver};

use crate::shelves::{keep_members, take_members};
use medium_port::{Medium, Shelf};
use run_volumes::Kept;
use std::alloc::Global;
use stream_port::{Clock, Fates};
use vote_call::{Limits, VoteEnd, Voted, votes};
use vote_form::PollLine;

/// What came of votes, and what is handed back.
#[derive(Drop)]
pub struct VotesEnded<F, C, M: Medium> {
    pub end: VoteEnd,
    /// The media that were taken, in the order of the members.
    pub media: Vec<Kept<M>>,
    pub fates: F,
    pub clock: C,
}

/// Lets three members vote on what these polls ask for. Their media are volumes 1,010 of repositories 1 to
/// 3, which are taken from the shelf in this order and handed back. A member whose medium can't be taken or
/// opened is down; the others vote all the same.
pub fn vote<S: Shelf, F: Fates, C: Clock>(
    alloc: Global,
    lines: &[PollLine],
    limits: Limits,
    shelf: &mut S,
    fates: F,
    clock: C,
) -> VotesEnded<F, C, S::Medium>
    requires lines { Every IsPoll lines.now }
    requires few { length lines.now ≤ 255 }
    ensures { TookNothing S.Medium.Medium (shelf_sight S.Shelf shelf.old) (shelf_sight S.Shelf shelf.new)
        (tellers (F.asked fates) (F.asked result.fates) (C.answers clock) (C.answers result.clock))
        result.media.items result.end
        ⊎ VotesOver S.Medium.Medium (shelf_sight S.Shelf shelf.old) (shelf_sight S.Shelf shelf.new) limits lines.now
        (tellers (F.asked fates) (F.asked result.fates) (C.answers clock) (C.answers result.clock))
        result.media.items result.end }
{
    let Ok(kept) = Vec::with_capacity(alloc, 3) else {
        return VotesEnded {
            end: VoteEnd::NoMemory,
            media: Vec::new(alloc),
            fates,
            clock,
        };
    };
    let media = take_members(shelf);
    let Voted {
        end,
        media,
        fates,
        clock,
    } = votes(alloc, lines, limits, media, fates, clock);
    VotesEnded {
        end,
        media: keep_members(media, kept),
        fates,
        clock,
    }
}
