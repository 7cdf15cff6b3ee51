//! What comes of a snapshot, by what the archives say.
ghost use Rattle.std.specs.Prelude.{◌≤◌, Some, IfSome, length};
ghost use Rattle.snapshot_command.specs.Snapshots as spec;

use crate::marks::{clock_for, mark_of};
use crate::texts::{last_clock_line, snapshot_text};
use archive_store::Known;
use std::alloc::Global;
use watch_command::{Outcome, refusal, refused, told};

// The map as of the mark.
fn tell_at(alloc: Global, known: &[Known], clock: u64) -> Outcome
    requires few { length known.now ≤ 16 }
    requires low { 1 ≤ clock }
    requires high { clock ≤ 1099511627775 }
    ensures { spec.GivesAt known.now (Some clock) result }
{
    match snapshot_text(alloc, known, mark_of(clock)) {
        Ok(text) => told(Ok(text)),
        Err(fault) => refusal(alloc, &fault),
    }
}

/// What the archives give as of the clock, or else of the one above them all.
pub fn tell(alloc: Global, known: &[Known], clock: Option<u64>) -> Outcome
    requires few { length known.now ≤ 16 }
    requires clock { IfSome clock (λ c. (1 ≤ c) × (c ≤ 1099511627775)) }
    ensures { spec.Gives clock known.now result }
{
    match clock_for(clock, known) {
        Some(clock) => tell_at(alloc, known, clock),
        None => refused(last_clock_line(alloc)),
    }
}
