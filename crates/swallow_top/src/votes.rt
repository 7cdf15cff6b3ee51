//! Votes: polls are read, voted on over the members' media, and told.
ghost use Rattle.std.specs.Prelude.{◌≡◌, ◌⊎◌, ◌≤◌, ◌<◌, ◌^◌, length};
ghost use Rattle.pseudo_time.specs.Lists.{Every};
ghost use Rattle.run_rounds.specs.Finishes.{account_of, tellers};
ghost use Rattle.run_rounds.specs.Stories.{no_trace};
ghost use Rattle.plan_volumes.specs.Shelves.{shelf_sight};
ghost use Rattle.votes_command.specs.Tellings as telling;
ghost use Rattle.votes_command.specs.Inputs.{IsPoll};
ghost use Rattle.swallow_top.specs.Histories.{AskedNothing};
ghost use Rattle.run_command.specs.Contract.{HasNoRun};
ghost use Rattle.swallow_top.specs.Votes.{AreFew, AreReadAs, HavePolled, ReadsPolls, TellsVotes, votes_status};
ghost use Rattle.run_command.specs.Written.{EndsIfAny, sinking};

use command_words::Options;
use medium_port::{Medium, Shelf};
use run_command::{Finish, Stop, Told, no_votes, read_all, write_all};
use std::alloc::Global;
use stream_port::{Clock, Fates, Sink, Source};
use value_form::Items;
use votes_command::{
    Limits, PollLine, PollStanding, VoteEnd, VotesEnded, VotesFault, parse, told_status, told_text,
    vote,
};
use world_core::Trace;

// The polls that the bytes are.
fn polls_in(alloc: Global, bytes: &[u8]) -> Result<Vec<PollLine>, Stop>
    ensures { AreReadAs bytes.now result }
{
    match parse(alloc, bytes) {
        Ok(polls) => Ok(polls),
        Err(VotesFault::Line(line)) => Err(Stop::Votes { line }),
        Err(VotesFault::NoMemory) => Err(Stop::NoMemory),
    }
}

/// The polls that the source has. It is read to its end, or to one byte more than a plan has.
pub fn read_polls<I: Source>(alloc: Global, source: &mut I) -> Result<Vec<PollLine>, Stop>
    ensures { ReadsPolls (I.left source.old) (I.left source.new) (I.faults source.old) (I.faults source.new) result }
{
    let bytes = read_all(alloc, source)?;
    polls_in(alloc, bytes.as_slice())
}

// Writes how polls stand. The answer is the status.
fn tell_standings<O: Sink>(
    alloc: Global,
    trace: &Trace,
    standings: &[PollStanding],
    sink: &mut O,
) -> u8
    requires { length standings.now < 2 ^ 32 }
    ensures { EndsIfAny result (sinking (O.taken sink.old) (O.taken sink.new) (O.faults sink.old) (O.faults sink.new))
        (votes_status trace.now standings.now) (telling.told_text trace.now standings.now) }
{
    let Ok(text) = told_text(alloc, trace, standings) else {
        return 7;
    };
    if write_all(sink, text.as_slice()).is_err() {
        return 4;
    }
    told_status(trace, standings)
}

// Writes what came of votes. The answer is the status, and the trace.
fn tell_end<O: Sink>(alloc: Global, end: VoteEnd, sink: &mut O) -> (u8, Trace)
    requires { AreFew end }
    ensures { TellsVotes end result.1 result.0 (sinking (O.taken sink.old) (O.taken sink.new) (O.faults sink.old)
        (O.faults sink.new)) }
{
    match end {
        VoteEnd::Told(trace, standings) => {
            let status = tell_standings(alloc, &trace, standings.as_slice(), sink);
            (status, trace)
        }
        VoteEnd::NoMemory => (7, no_votes(alloc)),
    }
}

/// Lets the members vote on the polls, and writes how these stand.
pub fn tell_votes<O: Sink, S: Shelf, F: Fates, C: Clock>(
    alloc: Global,
    polls: &[PollLine],
    options: Options,
    sink: &mut O,
    shelf: &mut S,
    fates: F,
    clock: C,
) -> Finish<S::Medium, F, C>
    requires polls { Every IsPoll polls.now }
    requires few { length polls.now ≤ 16 }
    requires ticks { options.ticks ≤ 1000000 }
    ensures polled { (AskedNothing S.Medium.Medium (shelf_sight S.Shelf shelf.old)
        (shelf_sight S.Shelf shelf.new) result.media
        (sinking (O.taken sink.old) (O.taken sink.new) (O.faults sink.old) (O.faults sink.new)) result.status
        × HasNoRun (account_of result.trace (tellers (F.asked fates) (F.asked result.fates) (C.answers clock)
        (C.answers result.clock)))
        × (result.votes ≡ no_trace))
        ⊎ HavePolled S.Medium.Medium (shelf_sight S.Shelf shelf.old) (shelf_sight S.Shelf shelf.new) polls.now options
        (account_of result.trace (tellers (F.asked fates) (F.asked result.fates) (C.answers clock)
        (C.answers result.clock)))
        result.votes result.media (sinking (O.taken sink.old) (O.taken sink.new) (O.faults sink.old)
        (O.faults sink.new)) result.status }
{
    let limits = Limits {
        ticks: options.ticks as u32,
        messages: options.messages,
    };
    let VotesEnded {
        end,
        media,
        fates,
        clock,
    } = vote(alloc, polls, limits, shelf, fates, clock);
    let (status, votes) = tell_end(alloc, end, sink);
    Finish {
        status,
        trace: Told::none(alloc),
        media: Items::of(media),
        fates,
        clock,
        votes,
    }
}
