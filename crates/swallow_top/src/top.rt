//! The call.
ghost use Rattle.std.specs.Prelude.{◌⊎◌, ℕ, List};
ghost use Rattle.command_words.specs.Words.{AreWords, said};
ghost use Rattle.run_rounds.specs.Finishes.{account_of, tellers};
ghost use Rattle.swallow_top.specs.Asked.{TellsAsked};
ghost use Rattle.swallow_top.specs.Refusals.{RefusedAs};
ghost use Rattle.swallow_top.specs.Histories.{AskedNothing};
ghost use Rattle.swallow_top.specs.Promise.{Promise};
ghost use Rattle.plan_volumes.specs.Shelves.{shelf_sight};
ghost use Rattle.run_command.specs.Written.{sinking};

use crate::histories::tell_history;
use crate::outcomes::{tell_audit, tell_map, tell_replay, tell_snapshot, tell_watch};
use crate::plans::read_plan;
use crate::retirements::tell_retirement;
use crate::votes::{read_polls, tell_votes};
use command_words::{Command, read_words};
use medium_port::{Medium, Shelf};
use plan_form::make;
use plan_volumes::Kept;
use run_command::{Finish, Stop, Wanted, fault_line, quiet, run_plan, write_all};
use settle_command::settle;
use std::alloc::Global;
use std::sync::Wait;
use std::thread::Threads;
use stream_port::{Clock, Fates, Sink, Source};
use votes_command::fault_line as votes_line;

// Writes why nothing was run. The answer is the status.
fn refused<O: Sink>(alloc: Global, stop: Stop, sink: &mut O) -> u8
    ensures { RefusedAs stop result (sinking (O.taken sink.old) (O.taken sink.new) (O.faults sink.old)
        (O.faults sink.new)) }
{
    match stop {
        Stop::Words => {
            let _ = write_all(sink, b"swallow: words\n");
            1
        }
        Stop::Fault { line, kind } => match fault_line(alloc, line, kind) {
            Ok(text) => {
                let _ = write_all(sink, text.as_slice());
                2
            }
            Err(_) => 7,
        },
        Stop::Votes { line } => match votes_line(alloc, line) {
            Ok(text) => {
                let _ = write_all(sink, text.as_slice());
                2
            }
            Err(_) => 7,
        },
        Stop::Source => {
            let _ = write_all(sink, b"swallow: source\n");
            3
        }
        Stop::NoMemory | Stop::Sink => 7,
    }
}

// What a command that neither runs a plan nor votes comes to, and the media that were taken, in the order of their
// volumes. For another command no medium is asked for.
fn tell_asked<O: Sink, S: Shelf>(
    alloc: Global,
    command: Command,
    sink: &mut O,
    shelf: &mut S,
) -> (u8, Vec<Kept<S::Medium>>)
    requires { (words : List (List ℕ)) × AreWords command words }
    ensures { AskedNothing S.Medium.Medium (shelf_sight S.Shelf shelf.old)
        (shelf_sight S.Shelf shelf.new) result.1.items
        (sinking (O.taken sink.old) (O.taken sink.new) (O.faults sink.old) (O.faults sink.new)) result.0
        ⊎ TellsAsked S.Medium.Medium (shelf_sight S.Shelf shelf.old)
        (shelf_sight S.Shelf shelf.new) command result.1.items
        (sinking (O.taken sink.old) (O.taken sink.new) (O.faults sink.old) (O.faults sink.new)) result.0 }
{
    match command {
        Command::History(object) => tell_history(alloc, object, sink, shelf),
        Command::Retire { repository, clock } => {
            tell_retirement(alloc, repository, clock, sink, shelf)
        }
        Command::Watch { repository, rule } => tell_watch(alloc, repository, rule, sink, shelf),
        Command::AsOf { repository, clock } => tell_map(alloc, repository, clock, sink, shelf),
        Command::Audit(object) => tell_audit(alloc, object, sink, shelf),
        Command::Snapshot { clock } => tell_snapshot(alloc, clock, sink, shelf),
        Command::Replay { values } => tell_replay(alloc, values, sink, shelf),
        Command::Run(_) | Command::Load { .. } | Command::Votes(_) | Command::Settle { .. } => (
            7,
            Vec::new(alloc),
        ),
    }
}

/// Does what the words say, which are those of `command_words`.
///
/// - `run` reads a plan from the source, runs it over the volumes of its nodes, and writes its report to
///   the sink;
/// - `load` makes a plan of a seed, runs it, and writes a summary;
/// - `history` opens the repository of an object alone, and writes the object's history;
/// - `retire` copies what is current in a repository at a mark into a fresh volume, whose log is the
///   repository's from then on, and writes how many effects were kept and dropped;
/// - `votes` reads polls from the source, lets three members vote on them over volumes 1,010 of
///   repositories 1 to 3, and writes how each stands;
/// - `watch` brings the totals of a repository's objects by a rule up to date, which stand in its volume
///   1,001, 1,002 or 1,003, over all committed versions that its complete volumes have, and writes them;
/// - `asof` writes the map of a repository's objects as of a mark, by its complete volumes together;
/// - `audit` writes all versions of an object that they have, and which volume has each;
/// - `snapshot` writes the map of all repositories as of a mark, by the complete volumes of all of them: what
///   one doesn't know of an attempt is what the attempt's home knows;
/// - `settle` opens repositories and no broker, lets expire what is due by the clock, lets each repository
///   learn what the homes of its versions decided, and writes how many versions that settled, and which are
///   open;
/// - `replay` reads all logs of repositories and brokers 1 to 16, carries every attempt that they tell out again by
///   its script alone, and writes how many there are, if the logs say the same.
///
/// The status in the answer is the one with which a program ends:
///
/// - 0: the text was written; every act has its outcome, and no node is down; or each poll holds a
///   decision;
/// - 1: the words are no command, and `swallow: words` was written;
/// - 2: the input is no plan, and `swallow: plan line L KIND` was written; or it isn't polls, and
///   `swallow: votes line L` was; or a broker's log shows a later run or another plan, and
///   `swallow: old run N` or `swallow: other plan act I` was;
/// - 3: the source failed, and `swallow: source` was written;
/// - 4: the sink failed while a report, a summary, a history, totals, a map, an audit, the line of a
///   retirement, what a settle or a replay came to or the line of a node that is down was written;
/// - 5: no node is down, and an act has no outcome, a poll holds no decision, or a settle left a version open;
/// - 6: a node is down, and the text says why;
/// - 7: memory runs out;
/// - 8: the repository may not be retired at the mark, and nothing was written to its media:
///   `swallow: last volume`, `swallow: old mark FLOOR` or `swallow: undecided OBJECT START` says why; or
///   there is no map as of the mark, and `swallow: undecided OBJECT START` says why; or no clock is above
///   those of the repositories, and `swallow: last clock` says so; or no number holds a total, no total was
///   written, and `swallow: overflow OBJECT START` says why; or the logs don't say what the scripts do:
///   `differs STAMP KIND` or `differs broker B log` says where.
pub fn swallow<
    I: Source,
    O: Sink,
    S: Shelf,
    F: Fates + Drop + Send,
    C: Clock + Drop + Send,
    R: Threads + Wait + Sync,
>(
    rt: &R,
    alloc: Global,
    words: &[&str],
    source: &mut I,
    sink: &mut O,
    shelf: &mut S,
    fates: F,
    clock: C,
) -> Finish<S::Medium, F, C>
where
    S::Medium: Drop + Send,
    ensures promise { Promise (record {
      words = said words.now;
      status = result.status;
      input = I.left source.old;
      left = I.left source.new;
      faults_before = I.faults source.old;
      faults = I.faults source.new;
      sink = (sinking (O.taken sink.old) (O.taken sink.new) (O.faults sink.old) (O.faults sink.new));
      media_are = S.Medium.Medium;
      shelf_before = (shelf_sight S.Shelf shelf.old);
      shelf = (shelf_sight S.Shelf shelf.new);
      told = (account_of result.trace (tellers (F.asked fates) (F.asked result.fates) (C.answers clock)
          (C.answers result.clock)));
      media = result.media;
      votes = result.votes;
    }) }
{
    match read_words(words) {
        None => {
            let status = refused(alloc, Stop::Words, sink);
            quiet(alloc, status, Vec::new(alloc), fates, clock)
        }
        Some(Command::Run(options)) => match read_plan(alloc, source) {
            Ok(plan) => run_plan(
                rt,
                alloc,
                &plan,
                options,
                Wanted::Report,
                sink,
                shelf,
                fates,
                clock,
            ),
            Err(stop) => {
                let status = refused(alloc, stop, sink);
                quiet(alloc, status, Vec::new(alloc), fates, clock)
            }
        },
        Some(
            Command::Load {
                seed,
                count,
                options,
            },
        ) => match make(alloc, seed, count) {
            Ok(plan) => run_plan(
                rt,
                alloc,
                &plan,
                options,
                Wanted::Summary { seed },
                sink,
                shelf,
                fates,
                clock,
            ),
            Err(_) => quiet(alloc, 7, Vec::new(alloc), fates, clock),
        },
        Some(Command::Votes(options)) => match read_polls(alloc, source) {
            Ok(polls) => tell_votes(alloc, polls.as_slice(), options, sink, shelf, fates, clock),
            Err(stop) => {
                let status = refused(alloc, stop, sink);
                quiet(alloc, status, Vec::new(alloc), fates, clock)
            }
        },
        Some(Command::Settle { repositories }) => {
            settle(rt, alloc, repositories, sink, shelf, fates, clock)
        }
        Some(command) => {
            let (status, media) = tell_asked(alloc, command, sink, shelf);
            quiet(alloc, status, media, fates, clock)
        }
    }
}
