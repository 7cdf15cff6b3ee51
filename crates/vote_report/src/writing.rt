//! The text of a call of votes.
ghost use Rattle.std.specs.Prelude.{◌≡◌, ◌++◌, ◌+◌, ◌<◌, ◌^◌, length, IfOk, OnOk};
ghost use Rattle.vote_report.specs.Texts as spec;

use crate::standings::PollStanding;
use report_writer::{Down, Wire, push_downs, push_named, push_stamp, push_wire_line};
use std::alloc::{AllocError, Global};

// Appends the decision that a poll holds, in a word.
fn push_held(out: &mut Vec<u8>, held: Option<bool>) -> Result<(), AllocError>
    ensures { OnOk result (out.new.items ≡ out.old.items ++ spec.held_text held) }
{
    match held {
        Some(true) => out.extend_from_slice(b"committed"),
        Some(false) => out.extend_from_slice(b"aborted"),
        None => out.extend_from_slice(b"open"),
    }
}

// Appends the line of the poll with this number.
fn push_poll(
    alloc: Global,
    out: &mut Vec<u8>,
    number: u64,
    poll: PollStanding,
) -> Result<(), AllocError>
    ensures { OnOk result (out.new.items ≡ out.old.items ++ spec.poll_line number poll) }
{
    push_named(alloc, out, b"poll ", number)?;
    out.push(b' ')?;
    push_stamp(alloc, out, poll.stamp)?;
    out.push(b' ')?;
    push_held(out, poll.held)?;
    out.push(b'\n')?;
    Ok(())
}

// Appends the lines of the polls, which are numbered from 1.
fn push_polls(alloc: Global, out: &mut Vec<u8>, polls: &[PollStanding]) -> Result<(), AllocError>
    requires { length polls.now < 2 ^ 32 }
    ensures { OnOk result (out.new.items ≡ out.old.items ++ spec.poll_lines 1 polls.now) }
{
    let mut number = 1u64;
    for poll in polls {
        push_poll(alloc, out, number, *poll)?;
        number += 1;
    }
    Ok(())
}

/// The text of polls: their lines, in order, the nodes that are down, and what the wire carried.
pub fn write_votes(
    alloc: Global,
    polls: &[PollStanding],
    downs: &[Down],
    wire: Wire,
) -> Result<Vec<u8>, AllocError>
    requires { length polls.now < 2 ^ 32 }
    ensures { IfOk result (λ text. text.items ≡ spec.votes_text polls.now downs.now wire) }
{
    let mut out = Vec::new(alloc);
    out.extend_from_slice(b"swallow votes 1\n")?;
    push_polls(alloc, &mut out, polls)?;
    push_downs(alloc, &mut out, downs)?;
    push_wire_line(alloc, &mut out, wire)?;
    Ok(out)
}

/// The line that refuses an input.
pub fn fault_line(alloc: Global, line: u32) -> Result<Vec<u8>, AllocError>
    ensures { IfOk result (λ text. text.items ≡ spec.fault_line line) }
{
    let mut text = Vec::new(alloc);
    push_named(alloc, &mut text, b"swallow: votes line ", u64::from(line))?;
    text.push(b'\n')?;
    Ok(text)
}
