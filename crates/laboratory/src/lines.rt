//! What the laboratory writes itself.
ghost use Rattle.run_command.specs.Written.{GotLine, sinking};

use stream_port::Sink;

// Writes the line, or a prefix of it where the sink fails.
pub fn write_line<O: Sink>(sink: &mut O, line: &[u8])
    ensures { GotLine (sinking (O.taken sink.old) (O.taken sink.new) (O.faults sink.old) (O.faults sink.new)) line.now }
{
    let mut at = 0;
    while at < line.len() {
        let Ok(count) = sink.write(&line[at..]) else {
            return;
        };
        at += count;
    }
}
