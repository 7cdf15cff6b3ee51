//! Reads the polls that are to be held.
ghost use Rattle.std.specs.Prelude.{◌≡◌, ◌∷◌, MatchOption};
ghost use Rattle.script_form.specs.Lines.{lines};
ghost use Rattle.plan_form.specs.PlanFaults.{Lacks};
ghost use Rattle.vote_form.specs.Inputs.{title};
ghost use Rattle.vote_form.specs.Faults.{Parses, ReadsPolls};

use crate::line_parts::poll_of;
use crate::poll_lines::PollLine;
use crate::votes_faults::VotesFault;
use script_form::first_line;
use std::alloc::Global;

const MOST_BYTES: usize = 4_194_304;

const MOST_POLLS: usize = 16;

// What follows the first line, if that is the title.
fn after_title(bytes: &[u8]) -> Option<&[u8]>
    ensures { MatchOption result (Lacks (λ l. l ≡ title) (lines bytes.now))
        (λ rest. lines bytes.now ≡ title ∷ lines rest.now) }
{
    if bytes.is_empty() {
        return None;
    }
    let (line, rest) = first_line(bytes);
    if line == b"swallow votes 1".as_slice() {
        Some(rest)
    } else {
        None
    }
}

// The polls of the lines behind the title.
fn polls_of(alloc: Global, bytes: &[u8]) -> Result<Vec<PollLine>, VotesFault>
    ensures { ReadsPolls bytes.now result }
{
    let mut polls = Vec::new(alloc);
    let mut rest = bytes;
    while !rest.is_empty() {
        let (line, after) = first_line(rest);
        let at = polls.len() as u32 + 2;
        if polls.len() >= MOST_POLLS {
            return Err(VotesFault::Line(at));
        }
        let Some(poll) = poll_of(line) else {
            return Err(VotesFault::Line(at));
        };
        polls.push(poll)?;
        rest = after;
    }
    Ok(polls)
}

/// The polls that the bytes are.
pub fn parse(alloc: Global, bytes: &[u8]) -> Result<Vec<PollLine>, VotesFault>
    ensures { Parses bytes.now result }
{
    if bytes.len() > MOST_BYTES {
        return Err(VotesFault::Line(0));
    }
    let Some(rest) = after_title(bytes) else {
        return Err(VotesFault::Line(1));
    };
    polls_of(alloc, rest)
}
