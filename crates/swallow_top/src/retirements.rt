//! The retirement of a repository.
ghost use Rattle.std.specs.Prelude.{◌≡◌, ◌⊎◌, ◌≤◌, ◌^◌, ◌-◌};
ghost use Rattle.plan_volumes.specs.Shelves.{shelf_sight};
ghost use Rattle.swallow_top.specs.Histories.{AskedNothing};
ghost use Rattle.swallow_top.specs.Retirements.{TellsRetired, TellsRetirement, mark_at};
ghost use Rattle.run_command.specs.Written.{sinking};

use medium_port::{Medium, Shelf};
use plan_volumes::Kept;
use pseudo_time::{PseudoTime, Stamp};
use retire_command::{Retired, retire};
use run_command::{tell_text, write_all};
use std::alloc::Global;
use stream_port::Sink;

/// The mark at a clock.
pub fn mark_of(clock: u64) -> PseudoTime
    requires low { 1 ≤ clock }
    requires high { clock ≤ 2 ^ 40 - 1 }
    ensures { result ≡ mark_at clock }
{
    let Some(stamp) = Stamp::new(clock, 1, 1) else {
        unreachable!()
    };
    let Some(mark) = PseudoTime::new(stamp, 1) else {
        unreachable!()
    };
    mark
}

// Writes what came of a retirement. The answer is the status.
fn tell_retired<O: Sink>(retired: Retired, sink: &mut O) -> u8
    ensures { TellsRetired retired result (sinking (O.taken sink.old) (O.taken sink.new) (O.faults sink.old)
        (O.faults sink.new)) }
{
    match retired {
        Retired::Done(line) => tell_text(Ok(line), 0, sink),
        Retired::Refused(line) => {
            let _ = write_all(sink, line.as_slice());
            8
        }
        Retired::Fallen(line) => tell_text(Ok(line), 6, sink),
        Retired::NoMemory => 7,
    }
}

/// Retires a repository at a clock, and writes what came of it. The answer is the status, and the media
/// that were taken, in the order of the volumes.
pub fn tell_retirement<O: Sink, S: Shelf>(
    alloc: Global,
    repository: u8,
    clock: u64,
    sink: &mut O,
    shelf: &mut S,
) -> (u8, Vec<Kept<S::Medium>>)
    requires low { 1 ≤ clock }
    requires high { clock ≤ 2 ^ 40 - 1 }
    ensures { AskedNothing S.Medium.Medium (shelf_sight S.Shelf shelf.old)
        (shelf_sight S.Shelf shelf.new) result.1.items
        (sinking (O.taken sink.old) (O.taken sink.new) (O.faults sink.old) (O.faults sink.new)) result.0
        ⊎ TellsRetirement S.Medium.Medium (shelf_sight S.Shelf shelf.old)
        (shelf_sight S.Shelf shelf.new) repository clock result.1.items
        (sinking (O.taken sink.old) (O.taken sink.new) (O.faults sink.old) (O.faults sink.new)) result.0 }
{
    let (retired, media) = retire(alloc, repository, mark_of(clock), shelf);
    (tell_retired(retired, sink), media)
}
