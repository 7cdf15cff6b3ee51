//! The call.
ghost use Rattle.std.specs.Prelude.{◌≡◌, ◌≤◌, ◌⊎◌, List, ℕ, []};
ghost use Rattle.std.specs.Io.KnownBytes.{prepend_known};
ghost use Rattle.command_words.specs.Words.{said};
ghost use Rattle.run_command.specs.Written.{sinking};
ghost use Rattle.session_form.specs.Sessions.{batch_text};
ghost use Rattle.session_command.specs.Ahead.{ahead};
ghost use Rattle.session_command.specs.Chains.{graver};
ghost use Rattle.session_command.specs.Sessions.{Held, Promise};
ghost use Rattle.session_command.specs.Standings.{standing};
ghost use Rattle.session_command.specs.Turns.{ToldOf};

use crate::answers::Answer;
use crate::inputs::SessionInput;
use crate::lines::tell_fault;
use crate::turns::{Turn, take_turn};
use crate::words::options_of;
use command_words::Options;
use held_shelf::HoldingShelf;
use medium_port::{Medium, Shelf};
use run_command::{Stop, write_all};
use std::alloc::Global;
use std::sync::Wait;
use std::thread::Threads;
use stream_port::{Clock, Fates, Sink, Source};

// The graver of two statuses after which a session goes on: 2, then 5, then 0.
fn graver_of(a: u8, b: u8) -> u8
    ensures { result ≡ graver a b }
{
    if a == 2 || b == 2 { 2 } else { a.max(b) }
}

// Reads and answers batches, until the session ends.
fn hold<
    I: Source,
    O: Sink,
    H: HoldingShelf,
    F: Fates + Drop + Send,
    C: Clock + Drop + Send,
    R: Threads + Wait + Sync,
>(
    rt: &R,
    alloc: Global,
    input: SessionInput,
    source: &mut I,
    options: Options,
    sink: &mut O,
    shelf: &mut H,
    fates: F,
    clock: C,
) -> Answer<F, C>
where
    H::Medium: Drop + Send,
    requires workers { 1 ≤ options.workers }
    requires lines { input.lines ≡ 3 }
    requires head { (repositories brokers : List ℕ) × (input.head.items ≡ batch_text repositories brokers []) }
    ensures held { (repositories brokers : List ℕ) → input.head.items ≡ batch_text repositories brokers [] →
        Held H.Shelf H.Medium.Medium options repositories brokers
        (prepend_known (ahead input.reader) (I.left source.old)) (I.faults source.old) (I.faults source.new) 3
        result.status
        (standing shelf.old (O.taken sink.old) (O.faults sink.old) (F.asked fates) (C.answers clock))
        (standing shelf.new (O.taken sink.new) (O.faults sink.new) (F.asked result.fates) (C.answers result.clock)) }
    ensures later { I.faults source.old ≤ I.faults source.new }
{
    let mut input = input;
    let mut fates = fates;
    let mut clock = clock;
    let mut status = 0u8;
    for _ in 0..u64::MAX {
        let (turn, answer) = take_turn(
            rt, alloc, &mut input, source, options, sink, shelf, fates, clock,
        );
        match turn {
            Turn::On => {
                status = graver_of(status, answer.status);
                fates = answer.fates;
                clock = answer.clock;
            }
            Turn::Ended => {
                return Answer {
                    status,
                    fates: answer.fates,
                    clock: answer.clock,
                };
            }
            Turn::Stopped => return answer,
        }
    }
    Answer {
        status,
        fates,
        clock,
    }
}

// Writes why there is no session. The answer is the status.
fn tell_stop<O: Sink>(alloc: Global, stop: Stop, sink: &mut O) -> u8
    ensures { ToldOf stop result (sinking (O.taken sink.old) (O.taken sink.new) (O.faults sink.old)
        (O.faults sink.new)) }
{
    match stop {
        Stop::Words => {
            let _ = write_all(sink, b"swallow: words\n");
            1
        }
        Stop::Fault { line, kind } => tell_fault(alloc, u64::from(line), kind, sink),
        Stop::Source => {
            let _ = write_all(sink, b"swallow: source\n");
            3
        }
        Stop::Votes { line: _ } | Stop::NoMemory | Stop::Sink => 7,
    }
}

// Holds no session, and writes why.
fn refuse<O: Sink, F: Fates, C: Clock>(
    alloc: Global,
    stop: Stop,
    sink: &mut O,
    fates: F,
    clock: C,
) -> Answer<F, C>
    ensures told { ToldOf stop result.status (sinking (O.taken sink.old) (O.taken sink.new) (O.faults sink.old)
        (O.faults sink.new)) }
    ensures still { (result.fates ≡ fates) × (result.clock ≡ clock) }
{
    let status = tell_stop(alloc, stop, sink);
    Answer {
        status,
        fates,
        clock,
    }
}

/// Does what the batches of a session say, one after another. The words are `session` and the options of
/// `run`.
///
/// - The input is `swallow session 1`, `repositories R`, `brokers B`, and then batches: the acts of a plan,
///   and a line `go`. A batch is run once its `go` was read, and its report is written before more is read.
/// - Its run is one above the greatest in the logs of the session's nodes, and the clock of each of its acts
///   is above each stamp there.
/// - A faulty batch is answered by `swallow: session line L KIND`, and nothing of it is run.
///
/// The status in the answer is the one with which a program ends:
///
/// - 0: the input ended, and each act of each batch has its outcome;
/// - 1: the words are no session, and `swallow: words` was written;
/// - 2: the head is faulty; or the input ended, and a batch was refused, or the last one lacks its `go`;
/// - 3: the source failed, and `swallow: source` was written;
/// - 4: the sink failed;
/// - 5: the input ended, no batch was refused, and an act has no outcome;
/// - 6: a node is down, and the last report says why;
/// - 7: memory ran out. The last batch may have run without a report.
pub fn session<
    I: Source,
    O: Sink,
    H: HoldingShelf,
    F: Fates + Drop + Send,
    C: Clock + Drop + Send,
    R: Threads + Wait + Sync,
>(
    rt: &R,
    alloc: Global,
    words: &[&str],
    source: &mut I,
    sink: &mut O,
    shelf: &mut H,
    fates: F,
    clock: C,
) -> Answer<F, C>
where
    H::Medium: Drop + Send,
    ensures promise { Promise H.Shelf H.Medium.Medium (record {
      words = said words.now;
      status = result.status;
      input = I.left source.old;
      faults_before = I.faults source.old;
      faults = I.faults source.new;
      before = (standing shelf.old (O.taken sink.old) (O.faults sink.old) (F.asked fates) (C.answers clock));
      after = (standing shelf.new (O.taken sink.new) (O.faults sink.new) (F.asked result.fates) (C.answers result.clock));
    }) }
{
    match options_of(alloc, words) {
        Ok(Some(options)) => match SessionInput::begin(alloc, source) {
            Ok(input) => hold(rt, alloc, input, source, options, sink, shelf, fates, clock),
            Err(stop) => refuse(alloc, stop, sink, fates, clock),
        },
        Ok(None) => refuse(alloc, Stop::Words, sink, fates, clock),
        Err(_) => refuse(alloc, Stop::NoMemory, sink, fates, clock),
    }
}
