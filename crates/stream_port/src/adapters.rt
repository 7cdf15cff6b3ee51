//! Sources and sinks over std's readers and writers.
ghost use Rattle.std.specs.Prelude.{None, ◌≤◌, length, IfOk};
ghost use Rattle.std.specs.Io.{ReadsAtMost};

use crate::ports::{Sink, SinkFault, Source, SourceFault};
use std::io::{self, ErrorKind, Read, Write};

// Reads, and once more after each interruption by a signal.
fn read_on<R: Read>(reader: &mut R, into: &mut [u8]) -> io::Result<usize>
    ensures { ReadsAtMost result into.new }
{
    for _ in 0..u64::MAX {
        match reader.read(into) {
            Err(error) if error.kind() == ErrorKind::Interrupted => {}
            answer => return answer,
        }
    }
    Err(ErrorKind::Interrupted.into())
}

// Writes, and once more after each interruption by a signal.
fn write_on<W: Write>(writer: &mut W, bytes: &[u8]) -> io::Result<usize>
    ensures { IfOk result (λ count. count ≤ length bytes.now) }
{
    for _ in 0..u64::MAX {
        match writer.write(bytes) {
            Err(error) if error.kind() == ErrorKind::Interrupted => {}
            answer => return answer,
        }
    }
    Err(ErrorKind::Interrupted.into())
}

/// A source over any reader. It tells no bytes, and counts each failing read as a fault, but for
/// those that a signal interrupts, which it does again.
#[derive(Drop)]
pub struct ReadSource<R> {
    reader: R,
    faults: u64,
}

impl<R> ReadSource<R> {
    /// A source whose bytes the reader gives.
    pub fn new(reader: R) -> ReadSource<R> {
        ReadSource { reader, faults: 0 }
    }
}

impl<R: Read> Source for ReadSource<R> {
    ghost left = { λ _. None };

    ghost faults = { λ s. s.faults };

    fn read(&mut self, into: &mut [u8]) -> Result<usize, SourceFault> {
        match read_on(&mut self.reader, into) {
            Ok(count) => Ok(count),
            Err(_) => {
                self.faults = self.faults.saturating_add(1);
                Err(SourceFault)
            }
        }
    }
}

/// A sink over any writer. It tells no bytes. A failing write is a fault, but for one that a signal
/// interrupts, which it does again; and so is one that takes nothing of a piece that isn't empty.
#[derive(Drop)]
pub struct WriteSink<W> {
    writer: W,
    faults: u64,
}

impl<W> WriteSink<W> {
    /// A sink whose bytes the writer takes.
    pub fn new(writer: W) -> WriteSink<W> {
        WriteSink { writer, faults: 0 }
    }
}

impl<W: Write> Sink for WriteSink<W> {
    ghost taken = { λ _. None };

    ghost faults = { λ s. s.faults };

    fn write(&mut self, bytes: &[u8]) -> Result<usize, SinkFault> {
        match write_on(&mut self.writer, bytes) {
            Ok(count) if count > 0 || bytes.is_empty() => Ok(count),
            _ => {
                self.faults = self.faults.saturating_add(1);
                Err(SinkFault)
            }
        }
    }
}
