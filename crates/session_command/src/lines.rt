//! The lines of a session that no report has.
ghost use Rattle.std.specs.Prelude.{◌≡◌, IfOk};
ghost use Rattle.run_command.specs.Written.{EndsIfAny, sinking};
ghost use Rattle.session_command.specs.Lines as spec;

use plan_form::PlanKind;
use run_command::tell_text;
use std::alloc::{AllocError, Global};
use stream_port::Sink;
use value_form::Bytes;

// The line that says what is wrong at a line of the session's input.
fn line_with(alloc: Global, line: u64, words: &str) -> Result<Bytes, AllocError>
    ensures { IfOk result (λ t. t ≡ spec.line_with line words.now) }
{
    let mut text = Vec::new(alloc);
    text.extend_from_slice(b"swallow: session line ")?;
    let number = line.to_string(alloc)?;
    text.extend_from_slice(number.as_bytes())?;
    text.push(b' ')?;
    text.extend_from_slice(words.as_bytes())?;
    text.push(b'\n')?;
    Ok(Bytes::of(text))
}

// Writes what is wrong at a line of the session's input. The answer is the status.
fn tell_words<O: Sink>(alloc: Global, line: u64, words: &str, sink: &mut O) -> u8
    ensures { EndsIfAny result (sinking (O.taken sink.old) (O.taken sink.new) (O.faults sink.old) (O.faults sink.new)) 2
        (spec.line_with line words.now) }
{
    tell_text(line_with(alloc, line, words), 2, sink)
}

/// Writes which fault of a plan is at a line of the session's input. The answer is the status.
pub fn tell_fault<O: Sink>(alloc: Global, line: u64, kind: PlanKind, sink: &mut O) -> u8
    ensures { EndsIfAny result (sinking (O.taken sink.old) (O.taken sink.new) (O.faults sink.old) (O.faults sink.new)) 2
        (spec.fault_line line kind) }
{
    tell_words(alloc, line, kind.words(), sink)
}

/// Writes that the last batch has no `go` at this line. The answer is the status.
pub fn tell_cut<O: Sink>(alloc: Global, line: u64, sink: &mut O) -> u8
    ensures { EndsIfAny result (sinking (O.taken sink.old) (O.taken sink.new) (O.faults sink.old) (O.faults sink.new)) 2
        (spec.cut_line line) }
{
    tell_words(alloc, line, "go", sink)
}

// The line that says that no run or no clock is left.
fn full_line(alloc: Global) -> Result<Bytes, AllocError>
    ensures { IfOk result (λ t. t ≡ spec.full_line) }
{
    let mut text = Vec::new(alloc);
    text.extend_from_slice(b"swallow: nothing is left above\n")?;
    Ok(Bytes::of(text))
}

/// Writes that no run or no clock is left. The answer is the status.
pub fn tell_full<O: Sink>(alloc: Global, sink: &mut O) -> u8
    ensures { EndsIfAny result (sinking (O.taken sink.old) (O.taken sink.new) (O.faults sink.old) (O.faults sink.new)) 2
        spec.full_line }
{
    tell_text(full_line(alloc), 2, sink)
}
