//! A source is read line by line.
ghost use Rattle.std.specs.Prelude.{◌≡◌, ◌≤◌, ◌++◌, ◌⊎◌, [], List, ℕ, None, false, length, IfOk, OnErr, IsErrOf};
ghost use Rattle.std.specs.Io.KnownBytes.{Consumes, IsAtEnd, prepend_known};
ghost use Rattle.stream_port.specs.Causes.{Rose};
ghost use Rattle.session_command.specs.Ahead.{IsRead, ahead, byte_in};

use crate::keeping::keep_byte;
use run_command::Stop;
use std::alloc::Global;
use stream_port::Source;

/// A line, without its end.
#[derive(Drop)]
pub struct Line {
    /// All of it; of a line that is longer than a plan may be, a front that is.
    pub bytes: Vec<u8>,
    /// Whether it has an end: the last line of an input may have none.
    pub is_ended: bool,
}

/// Reads lines from a source. It asks for more only when all that it was given is read.
#[derive(Drop)]
pub struct LineReader {
    // What the source gave last, and how much of it was read.
    piece: Vec<u8>,
    at: usize,
}

impl LineReader {
    /// A reader that has nothing yet.
    pub fn new(alloc: Global) -> LineReader
        ensures { ahead result ≡ [] }
    {
        LineReader {
            piece: Vec::new(alloc),
            at: 0,
        }
    }

    // Asks the source for more, when nothing is ahead. The answer is how many bytes it gave.
    fn fill<I: Source>(&mut self, source: &mut I) -> Result<usize, Stop>
        ensures bytes { IfOk result (λ n. Consumes (I.left source.old)
            (prepend_known (ahead self.new) (I.left source.new)) []) }
        ensures some { IfOk result (λ n. (n ≡ length self.new.piece.items) × (self.new.at ≡ 0)) }
        ensures ended { IfOk result (λ n. n ≡ 0 → IsAtEnd (I.left source.new)) }
        ensures error { OnErr result (IsErrOf result Stop.Source ⊎ IsErrOf result Stop.NoMemory) }
        ensures cause { IsErrOf result Stop.Source → Rose (I.faults source.old) (I.faults source.new) }
        ensures later { I.faults source.old ≤ I.faults source.new }
    {
        let mut piece = [0u8; 4096];
        let Ok(count) = source.read(&mut piece) else {
            return Err(Stop::Source);
        };
        self.piece.clear();
        self.at = 0;
        self.piece.extend_from_slice(&piece[..count])?;
        Ok(count)
    }

    // The next byte; none at the end of the input.
    fn next_byte<I: Source>(&mut self, source: &mut I) -> Result<Option<u8>, Stop>
        ensures bytes { IfOk result (λ b. Consumes (prepend_known (ahead self.old) (I.left source.old))
            (prepend_known (ahead self.new) (I.left source.new)) (byte_in b)) }
        ensures ended { IfOk result (λ b. b ≡ None →
            IsAtEnd (prepend_known (ahead self.new) (I.left source.new))) }
        ensures error { OnErr result (IsErrOf result Stop.Source ⊎ IsErrOf result Stop.NoMemory) }
        ensures cause { IsErrOf result Stop.Source → Rose (I.faults source.old) (I.faults source.new) }
        ensures later { I.faults source.old ≤ I.faults source.new }
    {
        if self.at >= self.piece.len() && self.fill(source)? == 0 {
            return Ok(None);
        }
        let byte = self.piece[self.at];
        self.at += 1;
        Ok(Some(byte))
    }

    /// Reads the next line, up to its end or that of the input.
    pub fn read_line<I: Source>(&mut self, alloc: Global, source: &mut I) -> Result<Line, Stop>
        ensures line { IfOk result (λ l. (line : List ℕ) ×
            IsRead (prepend_known (ahead self.old) (I.left source.old))
            (prepend_known (ahead self.new) (I.left source.new)) l.bytes.items l.is_ended line) }
        ensures ended { IfOk result (λ l. l.is_ended ≡ false →
            IsAtEnd (prepend_known (ahead self.new) (I.left source.new))) }
        ensures error { OnErr result (IsErrOf result Stop.Source ⊎ IsErrOf result Stop.NoMemory) }
        ensures cause { IsErrOf result Stop.Source → Rose (I.faults source.old) (I.faults source.new) }
        ensures later { I.faults source.old ≤ I.faults source.new }
    {
        let mut bytes = Vec::new(alloc);
        for _ in 0..u64::MAX {
            let Some(byte) = self.next_byte(source)? else {
                return Ok(Line {
                    bytes,
                    is_ended: false,
                });
            };
            if byte == b'\n' {
                return Ok(Line {
                    bytes,
                    is_ended: true,
                });
            }
            keep_byte(&mut bytes, byte)?;
        }
        Err(Stop::NoMemory)
    }
}
