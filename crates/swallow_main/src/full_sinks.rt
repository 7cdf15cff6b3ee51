//! Whether a text tells of a node that is down since a medium was full.

use std::str;
use stream_port::{Sink, SinkFault};

/// The bytes of a line that are looked at: the longest line of a node that is down has fewer.
const LINE: usize = 40;

// Whether the line is `down KIND NUMBER full PAGES`.
fn tells_full(line: &[u8]) -> bool {
    match str::from_utf8(line) {
        Ok(text) => text.starts_with("down ") && text.contains(" full "),
        Err(_) => false,
    }
}

// What was written of the lines so far.
#[derive(Drop)]
struct Lines {
    // The first bytes of the line that is being written, and how many they are.
    line: [u8; LINE],
    length: usize,
    is_full: bool,
}

impl Lines {
    fn note(&mut self, byte: u8) {
        if byte == b'\n' {
            if let Some(line) = self.line.get(..self.length) {
                self.is_full = self.is_full || tells_full(line);
            }
            self.length = 0;
        } else if self.length < LINE {
            self.line[self.length] = byte;
            self.length += 1;
        }
    }

    fn note_all(&mut self, bytes: &[u8]) {
        for byte in bytes {
            self.note(*byte);
        }
    }
}

/// A sink that notices a line which tells of a node for which a medium was full. It tells the bytes that the
/// other tells.
#[derive(Drop)]
pub struct FullSink<S> {
    sink: S,
    lines: Lines,
}

impl<S> FullSink<S> {
    /// A sink over this one, to which no line was written yet.
    pub fn new(sink: S) -> FullSink<S> {
        FullSink {
            sink,
            lines: Lines {
                line: [0; LINE],
                length: 0,
                is_full: false,
            },
        }
    }

    /// Whether such a line was written.
    pub fn is_full(&self) -> bool {
        self.lines.is_full
    }
}

impl<S: Sink> Sink for FullSink<S> {
    ghost taken = { λ s. S.taken s.sink };

    ghost faults = { λ s. S.faults s.sink };

    fn write(&mut self, bytes: &[u8]) -> Result<usize, SinkFault> {
        let count = self.sink.write(bytes)?;
        self.lines.note_all(bytes.get(..count).unwrap_or(&[]));
        Ok(count)
    }
}
