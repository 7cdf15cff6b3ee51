//! A text is written, and its status found.
ghost use Rattle.run_command.specs.Written.{TellsText, sinking};

use crate::streams::write_all;
use std::alloc::AllocError;
use stream_port::Sink;
use value_form::Bytes;

/// Writes a text. The answer is the status: `written` where the sink took all of it.
pub fn tell_text<O: Sink>(text: Result<Bytes, AllocError>, written: u8, sink: &mut O) -> u8
    ensures { TellsText text written result (sinking (O.taken sink.old) (O.taken sink.new) (O.faults sink.old)
        (O.faults sink.new)) }
{
    let Ok(text) = text else {
        return 7;
    };
    if write_all(sink, text.as_slice()).is_err() {
        4
    } else {
        written
    }
}
