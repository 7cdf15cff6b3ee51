//! The polls of an input, and how they stand.
ghost use Rattle.std.specs.Prelude.{◌≡◌, ◌++◌, ◌+◌, ◌≤◌, length, IfOk, OnOk};
ghost use Rattle.pseudo_time.specs.Lists.{Every};
ghost use Rattle.vote_form.specs.Inputs.{IsPoll};
ghost use Rattle.vote_call.specs.Polls.{polls_from, standings_of};

use record_votes::Poll;
use std::alloc::{AllocError, Global};
use vote_form::PollLine;
use vote_report::PollStanding;

// Appends a poll for each line, with the numbers from this one on.
fn push_polls(
    alloc: Global,
    polls: &mut Vec<Poll>,
    number: usize,
    lines: &[PollLine],
) -> Result<(), AllocError>
    requires each { Every IsPoll lines.now }
    requires few { number + length lines.now ≤ 256 }
    ensures { OnOk result (polls.new.items ≡ polls.old.items ++ polls_from number lines.now) }
{
    match lines {
        [] => Ok(()),
        [line, more @ ..] => {
            let PollLine {
                stamp,
                timeout,
                wish,
            } = *line;
            polls.push(Poll::new(alloc, number as u8, stamp, timeout, wish))?;
            push_polls(alloc, polls, number + 1, more)
        }
    }
}

/// A poll for each line.
pub fn polls_of(alloc: Global, lines: &[PollLine]) -> Result<Vec<Poll>, AllocError>
    requires each { Every IsPoll lines.now }
    requires few { length lines.now ≤ 255 }
    ensures { IfOk result (λ polls. polls.items ≡ polls_from 1 lines.now) }
{
    let mut polls = Vec::new(alloc);
    push_polls(alloc, &mut polls, 1, lines)?;
    Ok(polls)
}

// Appends how each poll stands.
fn push_standings(
    standings: &mut Vec<PollStanding>,
    lines: &[PollLine],
    polls: &[Poll],
) -> Result<(), AllocError>
    ensures { OnOk result (standings.new.items ≡ standings.old.items ++ standings_of lines.now polls.now) }
{
    match lines {
        [] => Ok(()),
        [line, lines @ ..] => match polls {
            [] => Ok(()),
            [poll, polls @ ..] => {
                standings.push(PollStanding {
                    stamp: line.stamp,
                    held: poll.held(),
                })?;
                push_standings(standings, lines, polls)
            }
        },
    }
}

/// How the polls of these lines stand.
pub fn standings(
    alloc: Global,
    lines: &[PollLine],
    polls: &[Poll],
) -> Result<Vec<PollStanding>, AllocError>
    ensures { IfOk result (λ standings. standings.items ≡ standings_of lines.now polls.now) }
{
    let mut standings = Vec::new(alloc);
    push_standings(&mut standings, lines, polls)?;
    Ok(standings)
}
