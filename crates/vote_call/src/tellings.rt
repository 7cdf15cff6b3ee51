//! What is reported of votes: the text, and the status.
ghost use Rattle.std.specs.Prelude.{◌≡◌, ◌++◌, ◌<◌, ◌^◌, length, IfOk, OnOk};
ghost use Rattle.pseudo_time.specs.Nodes.{repository};
ghost use Rattle.world_core.specs.Counts.{down_cause};
ghost use Rattle.vote_report.specs.Statuses.{all_held, status_with};
ghost use Rattle.world_core.specs.Walks as walks;
ghost use Rattle.vote_call.specs.Tellings as spec;

use pseudo_time::{DownCause, NodeId};
use report_writer::Down;
use std::alloc::{AllocError, Global};
use trace_report::wire_of;
use vote_report::{PollStanding, status_of, write_votes};
use world_core::{Entry, Trace};

// Why the node is down, if it is.
fn cause_of(entries: &[Entry], node: NodeId) -> Option<DownCause>
    ensures { result ≡ down_cause node entries.now }
{
    for entry in entries {
        if let Entry::Down {
            node: fallen,
            cause,
        } = entry
        {
            if *fallen == node {
                return Some(*cause);
            }
        }
    }
    None
}

// Appends the member, if it is down.
fn push_down(downs: &mut Vec<Down>, entries: &[Entry], number: u8) -> Result<(), AllocError>
    ensures { OnOk result (downs.new.items ≡ downs.old.items ++ spec.down_at entries.now (repository number)) }
{
    let node = NodeId::repository(number);
    if let Some(cause) = cause_of(entries, node) {
        downs.push(Down { node, cause })?;
    }
    Ok(())
}

// The members that are down, in their order.
fn downs_of(alloc: Global, entries: &[Entry]) -> Result<Vec<Down>, AllocError>
    ensures { IfOk result (λ downs. downs.items ≡ spec.members_down entries.now) }
{
    let mut downs = Vec::new(alloc);
    push_down(&mut downs, entries, 1)?;
    push_down(&mut downs, entries, 2)?;
    push_down(&mut downs, entries, 3)?;
    Ok(downs)
}

// Whether a member goes down.
fn is_down(entry: &Entry) -> bool
    ensures { result ≡ walks.is_down entry.now }
{
    match entry {
        Entry::Down { node: _, cause: _ } => true,
        _ => false,
    }
}

// Whether a member is down.
fn some_down(entries: &[Entry]) -> bool
    ensures { result ≡ spec.some_down entries.now }
{
    entries.iter().any(|entry| is_down(entry))
}

/// The text of votes.
pub fn told_text(
    alloc: Global,
    trace: &Trace,
    standings: &[PollStanding],
) -> Result<Vec<u8>, AllocError>
    requires { length standings.now < 2 ^ 32 }
    ensures { IfOk result (λ text. text.items ≡ spec.told_text trace.now standings.now) }
{
    let downs = downs_of(alloc, trace.entries.as_slice())?;
    write_votes(alloc, standings, downs.as_slice(), wire_of(trace))
}

/// Their status: 0 exactly where each poll holds a decision, else 6 where a member is down, else 5.
pub fn told_status(trace: &Trace, standings: &[PollStanding]) -> u8
    ensures { result ≡ status_with (all_held standings.now) (spec.some_down trace.now.entries) }
{
    status_of(standings, some_down(trace.entries.as_slice()))
}
