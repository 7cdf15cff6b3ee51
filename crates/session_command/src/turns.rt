//! One turn of a session: a batch is read and answered, or the session ends.
ghost use Rattle.std.specs.Prelude.{◌≡◌, ◌↔◌, ◌≤◌, IsTrue, List, ℕ, []};
ghost use Rattle.std.specs.Io.KnownBytes.{prepend_known};
ghost use Rattle.session_form.specs.Sessions.{batch_text};
ghost use Rattle.run_command.specs.Written.{sinking};
ghost use Rattle.session_command.specs.Ahead.{ahead};
ghost use Rattle.session_command.specs.Chains.{GoesOn};
ghost use Rattle.session_command.specs.Standings.{standing};
ghost use Rattle.session_command.specs.Turns.{IsAfter, StoppedAs, Turned};

use crate::answers::{Answer, answer_batch};
use crate::inputs::{Next, SessionInput};
use crate::lines::tell_cut;
use command_words::Options;
use held_shelf::HoldingShelf;
use medium_port::{Medium, Shelf};
use run_command::{Stop, write_all};
use std::alloc::Global;
use std::sync::Wait;
use std::thread::Threads;
use stream_port::{Clock, Fates, Sink, Source};

/// What a turn came to.
#[derive(Clone, Copy, Debug, PartialEq, Eq)]
pub enum Turn {
    /// A batch was answered, and the session goes on.
    On,
    /// The input ended.
    Ended,
    /// The session ends for another cause.
    Stopped,
}

// Whether a session goes on after a batch of this status.
fn goes_on(status: u8) -> bool
    ensures { IsTrue result ↔ GoesOn status }
{
    status == 0 || status == 2 || status == 5
}

// What a turn comes to by the status of its batch.
fn turn_after(status: u8) -> Turn
    ensures { IsAfter status result }
{
    if goes_on(status) {
        return Turn::On;
    }
    Turn::Stopped
}

// Writes why no more is read. The answer is the status.
fn tell_stop<O: Sink>(stop: Stop, sink: &mut O) -> u8
    ensures { StoppedAs stop result (sinking (O.taken sink.old) (O.taken sink.new) (O.faults sink.old)
        (O.faults sink.new)) }
{
    match stop {
        Stop::Source => {
            let _ = write_all(sink, b"swallow: source\n");
            3
        }
        _ => 7,
    }
}

/// Reads the next batch, and answers it.
pub fn take_turn<
    I: Source,
    O: Sink,
    H: HoldingShelf,
    F: Fates + Drop + Send,
    C: Clock + Drop + Send,
    R: Threads + Wait + Sync,
>(
    rt: &R,
    alloc: Global,
    input: &mut SessionInput,
    source: &mut I,
    options: Options,
    sink: &mut O,
    shelf: &mut H,
    fates: F,
    clock: C,
) -> (Turn, Answer<F, C>)
where
    H::Medium: Drop + Send,
    requires workers { 1 ≤ options.workers }
    ensures turned { (repositories brokers : List ℕ) →
        input.old.head.items ≡ batch_text repositories brokers [] →
        Turned H.Shelf H.Medium.Medium options repositories brokers
        (prepend_known (ahead input.old.reader) (I.left source.old))
        (prepend_known (ahead input.new.reader) (I.left source.new))
        (I.faults source.old) (I.faults source.new) input.old.lines input.new.lines result.1.status
        (standing shelf.old (O.taken sink.old) (O.faults sink.old) (F.asked fates) (C.answers clock))
        (standing shelf.new (O.taken sink.new) (O.faults sink.new) (F.asked result.1.fates) (C.answers result.1.clock)) result.0 }
    ensures head { input.new.head.items ≡ input.old.head.items }
    ensures later { I.faults source.old ≤ I.faults source.new }
{
    let before = input.lines;
    match input.read_batch(alloc, source) {
        Ok(Next::Batch(text)) => {
            let answer = answer_batch(
                rt,
                alloc,
                text.as_slice(),
                before,
                options,
                sink,
                shelf,
                fates,
                clock,
            );
            (turn_after(answer.status), answer)
        }
        Ok(Next::Ended) => (
            Turn::Ended,
            Answer {
                status: 0,
                fates,
                clock,
            },
        ),
        Ok(Next::Cut { line }) => {
            let status = tell_cut(alloc, line, sink);
            (
                Turn::Stopped,
                Answer {
                    status,
                    fates,
                    clock,
                },
            )
        }
        Err(stop) => {
            let status = tell_stop(stop, sink);
            (
                Turn::Stopped,
                Answer {
                    status,
                    fates,
                    clock,
                },
            )
        }
    }
}
