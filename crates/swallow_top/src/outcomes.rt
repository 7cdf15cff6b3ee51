//! What came of a question to an archive, of a watch, of a snapshot and of a replay.
ghost use Rattle.std.specs.Prelude.{◌≡◌, ◌⊎◌, ◌≤◌, ◌^◌, ◌-◌, IfSome};
ghost use Rattle.plan_volumes.specs.Shelves.{shelf_sight};
ghost use Rattle.swallow_top.specs.Histories.{AskedNothing};
ghost use Rattle.swallow_top.specs.Outcomes.{TellsAnswer, TellsOutcome, TellsReplay, TellsSnapshot, TellsWatch};
ghost use Rattle.swallow_top.specs.Retirements.{mark_at};
ghost use Rattle.run_command.specs.Written.{sinking};

use crate::retirements::mark_of;
use archive_promise::{Outcome, Question, ask, snapshot, watch};
use command_words::Rule;
use medium_port::{Medium, Shelf};
use plan_volumes::Kept;
use replay_command::replay;
use run_command::{tell_text, write_all};
use std::alloc::Global;
use stream_port::Sink;
use value_form::ObjectId;

// Writes what came of a command. The answer is the status.
fn tell_outcome<O: Sink>(outcome: Outcome, sink: &mut O) -> u8
    ensures { TellsOutcome outcome result (sinking (O.taken sink.old) (O.taken sink.new) (O.faults sink.old)
        (O.faults sink.new)) }
{
    match outcome {
        Outcome::Told(text) => tell_text(Ok(text), 0, sink),
        Outcome::Refused(line) => {
            let _ = write_all(sink, line.as_slice());
            8
        }
        Outcome::Fallen(line) => tell_text(Ok(line), 6, sink),
        Outcome::NoMemory => 7,
    }
}

/// Writes the map of a repository's objects as of a clock. The answer is the status, and the media that were
/// taken, in the order of the volumes.
pub fn tell_map<O: Sink, S: Shelf>(
    alloc: Global,
    repository: u8,
    clock: u64,
    sink: &mut O,
    shelf: &mut S,
) -> (u8, Vec<Kept<S::Medium>>)
    requires low { 1 ≤ clock }
    requires high { clock ≤ 2 ^ 40 - 1 }
    ensures { AskedNothing S.Medium.Medium (shelf_sight S.Shelf shelf.old)
        (shelf_sight S.Shelf shelf.new) result.1.items
        (sinking (O.taken sink.old) (O.taken sink.new) (O.faults sink.old) (O.faults sink.new)) result.0
        ⊎ TellsAnswer S.Medium.Medium (shelf_sight S.Shelf shelf.old) (shelf_sight S.Shelf shelf.new)
        (Question.AsOf repository (mark_at clock)) result.1.items
        (sinking (O.taken sink.old) (O.taken sink.new) (O.faults sink.old) (O.faults sink.new)) result.0 }
{
    let mark = mark_of(clock);
    let (outcome, media) = ask(alloc, Question::AsOf { repository, mark }, shelf);
    (tell_outcome(outcome, sink), media)
}

/// Writes all versions of an object. The answer is the status, and the media that were taken, in the order of
/// the volumes.
pub fn tell_audit<O: Sink, S: Shelf>(
    alloc: Global,
    object: ObjectId,
    sink: &mut O,
    shelf: &mut S,
) -> (u8, Vec<Kept<S::Medium>>)
    ensures { AskedNothing S.Medium.Medium (shelf_sight S.Shelf shelf.old)
        (shelf_sight S.Shelf shelf.new) result.1.items
        (sinking (O.taken sink.old) (O.taken sink.new) (O.faults sink.old) (O.faults sink.new)) result.0
        ⊎ TellsAnswer S.Medium.Medium (shelf_sight S.Shelf shelf.old) (shelf_sight S.Shelf shelf.new)
        (Question.Audit object) result.1.items
        (sinking (O.taken sink.old) (O.taken sink.new) (O.faults sink.old) (O.faults sink.new)) result.0 }
{
    let (outcome, media) = ask(alloc, Question::Audit { object }, shelf);
    (tell_outcome(outcome, sink), media)
}

/// Brings the totals of a repository's objects by a rule up to date, and writes them. The answer is the
/// status, and the media that were taken, in the order of the volumes.
pub fn tell_watch<O: Sink, S: Shelf>(
    alloc: Global,
    repository: u8,
    rule: Rule,
    sink: &mut O,
    shelf: &mut S,
) -> (u8, Vec<Kept<S::Medium>>)
    ensures { AskedNothing S.Medium.Medium (shelf_sight S.Shelf shelf.old)
        (shelf_sight S.Shelf shelf.new) result.1.items
        (sinking (O.taken sink.old) (O.taken sink.new) (O.faults sink.old) (O.faults sink.new)) result.0
        ⊎ TellsWatch S.Medium.Medium (shelf_sight S.Shelf shelf.old)
        (shelf_sight S.Shelf shelf.new) repository rule result.1.items
        (sinking (O.taken sink.old) (O.taken sink.new) (O.faults sink.old) (O.faults sink.new)) result.0 }
{
    let (outcome, media) = watch(alloc, repository, rule, shelf);
    (tell_outcome(outcome, sink), media)
}

/// Writes the map of all repositories as of a clock, or else as of one above all theirs. The answer is the status,
/// and the media that were taken, in the order of the repositories and volumes.
pub fn tell_snapshot<O: Sink, S: Shelf>(
    alloc: Global,
    clock: Option<u64>,
    sink: &mut O,
    shelf: &mut S,
) -> (u8, Vec<Kept<S::Medium>>)
    requires { IfSome clock (λ c. (1 ≤ c) × (c ≤ 1099511627775)) }
    ensures { AskedNothing S.Medium.Medium (shelf_sight S.Shelf shelf.old)
        (shelf_sight S.Shelf shelf.new) result.1.items
        (sinking (O.taken sink.old) (O.taken sink.new) (O.faults sink.old) (O.faults sink.new)) result.0
        ⊎ TellsSnapshot S.Medium.Medium (shelf_sight S.Shelf shelf.old)
        (shelf_sight S.Shelf shelf.new) clock result.1.items
        (sinking (O.taken sink.old) (O.taken sink.new) (O.faults sink.old) (O.faults sink.new)) result.0 }
{
    let (outcome, media) = snapshot(alloc, clock, shelf);
    (tell_outcome(outcome, sink), media)
}

/// Carries all attempts of a folder out again, and writes whether its logs say the same. The answer is the status, and
/// the media that were taken, in the order of the nodes and volumes.
pub fn tell_replay<O: Sink, S: Shelf>(
    alloc: Global,
    values: bool,
    sink: &mut O,
    shelf: &mut S,
) -> (u8, Vec<Kept<S::Medium>>)
    ensures { AskedNothing S.Medium.Medium (shelf_sight S.Shelf shelf.old)
        (shelf_sight S.Shelf shelf.new) result.1.items
        (sinking (O.taken sink.old) (O.taken sink.new) (O.faults sink.old) (O.faults sink.new)) result.0
        ⊎ TellsReplay S.Medium.Medium (shelf_sight S.Shelf shelf.old)
        (shelf_sight S.Shelf shelf.new) values result.1.items
        (sinking (O.taken sink.old) (O.taken sink.new) (O.faults sink.old) (O.faults sink.new)) result.0 }
{
    let (outcome, media) = replay(alloc, values, shelf);
    (tell_outcome(outcome, sink), media)
}
