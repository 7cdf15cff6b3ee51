//! Votes: the call.
ghost use Rattle.std.specs.Prelude.{◌≡◌, ◌≤◌, ◌<◌, ◌^◌, length, OnOk};
ghost use Rattle.pseudo_time.specs.Lists.{Every};
ghost use Rattle.vote_form.specs.Inputs.{IsPoll};
ghost use Rattle.vote_call.specs.Ends.{EndedFor, EndsAs, RunsAs, Tells, tellers};
ghost use Rattle.vote_call.specs.Media.{AreKept, AreUsable, SomeOpened, given_back, handed_back};
ghost use Rattle.vote_call.specs.Starts.{LastFor};

use crate::member_media::MemberMedia;
use crate::openings::{Openings, open_members};
use crate::poll_lists::{polls_of, standings};
use crate::starts::{begin, courier_for};
use medium_port::Medium;
use record_votes::Poll;
use std::alloc::{AllocError, Global};
use stream_port::{Clock, Fates};
use value_form::Items;
use vote_form::PollLine;
use vote_report::PollStanding;
use vote_run::{Courier, Limits, Members, conduct};
use world_core::Trace;

/// How votes ended.
#[derive(Debug, Drop)]
pub enum VoteEnd {
    /// This happened, and so the polls stand.
    Told(Trace, Items<PollStanding>),
    NoMemory,
}

/// What votes hand back.
#[derive(Drop)]
pub struct Voted<F, C, M: Medium> {
    pub end: VoteEnd,
    pub media: MemberMedia<M>,
    pub fates: F,
    pub clock: C,
}

// What a run tells at its end.
fn told(
    alloc: Global,
    lines: &[PollLine],
    polls: &[Poll],
    trace: Trace,
    ended: Result<(), AllocError>,
) -> VoteEnd
    ensures { Tells lines.now polls.now trace ended result }
{
    if ended.is_err() {
        return VoteEnd::NoMemory;
    }
    match standings(alloc, lines, polls) {
        Ok(standings) => VoteEnd::Told(trace, Items::of(standings)),
        Err(_) => VoteEnd::NoMemory,
    }
}

// The members' media.
fn media_of<M: Medium>(members: Members<M>) -> MemberMedia<M>
    ensures { result ≡ handed_back members }
{
    let Members {
        first,
        second,
        third,
    } = members;
    MemberMedia {
        first: first.release(),
        second: second.release(),
        third: third.release(),
    }
}

// Members and polls begin, and go on until it is over.
fn go<F: Fates, C: Clock, M: Medium>(
    alloc: Global,
    courier: &mut Courier<F, C>,
    openings: Openings<M>,
    polls: &mut Vec<Poll>,
    limits: Limits,
) -> (Members<M>, Result<(), AllocError>)
    requires few { length polls.old.items ≤ 255 }
    requires opened { SomeOpened M.Medium openings }
    ensures few { limits.ticks < 2 ^ 32 }
    ensures lasts { LastFor M.Medium openings result.0 }
    ensures count { length polls.new.items ≡ length polls.old.items }
    ensures ended { OnOk result.1 (EndedFor M.Medium limits openings courier.old polls.old.items courier.new result.0
        polls.new.items) }
{
    let (members, begun) = begin(alloc, courier, openings, polls);
    if begun.is_err() {
        return (members, Err(AllocError));
    }
    conduct(alloc, courier, members, polls, limits)
}

// Lets the members and the polls vote, until it is over.
fn run<F: Fates, C: Clock, M: Medium>(
    alloc: Global,
    lines: &[PollLine],
    limits: Limits,
    courier: Courier<F, C>,
    openings: Openings<M>,
    polls: Vec<Poll>,
) -> Voted<F, C, M>
    requires few { length polls.items ≤ 255 }
    requires opened { SomeOpened M.Medium openings }
    ensures { RunsAs M.Medium limits lines.now courier openings polls.items result.end result.media
        (F.asked result.fates) (C.answers result.clock) }
{
    let mut courier = courier;
    let mut polls = polls;
    let (members, ended) = go(alloc, &mut courier, openings, &mut polls, limits);
    let (trace, fates, clock) = courier.finish();
    Voted {
        end: told(alloc, lines, polls.as_slice(), trace, ended),
        media: media_of(members),
        fates,
        clock,
    }
}

// Memory ran out before anything was sent or written.
fn wanting<F, C, M: Medium>(openings: Openings<M>, fates: F, clock: C) -> Voted<F, C, M>
    ensures end { result.end ≡ VoteEnd.NoMemory }
    ensures media { result.media ≡ given_back openings }
{
    Voted {
        end: VoteEnd::NoMemory,
        media: openings.release(),
        fates,
        clock,
    }
}

/// Lets three members vote on what these polls ask for, each over its medium, until each poll holds a
/// decision, so many messages were sent, or nobody has anything to do and so many ticks have passed. A
/// medium that is missing couldn't be had, and a member whose medium can't be opened is down.
pub fn votes<F: Fates, C: Clock, M: Medium>(
    alloc: Global,
    lines: &[PollLine],
    limits: Limits,
    media: MemberMedia<M>,
    fates: F,
    clock: C,
) -> Voted<F, C, M>
    requires lines { Every IsPoll lines.now }
    requires few { length lines.now ≤ 255 }
    requires usable { AreUsable M.Medium media }
    ensures ended { EndsAs M.Medium limits lines.now
        (tellers (F.asked fates) (F.asked result.fates) (C.answers clock) (C.answers result.clock)) media
        result.media result.end }
    ensures kept { AreKept M.Medium media result.media }
{
    let openings = open_members(alloc, media);
    let Ok(polls) = polls_of(alloc, lines) else {
        return wanting(openings, fates, clock);
    };
    match courier_for(alloc, &openings, lines.len(), fates, clock) {
        Ok(courier) => run(alloc, lines, limits, courier, openings, polls),
        Err((fates, clock)) => wanting(openings, fates, clock),
    }
}
