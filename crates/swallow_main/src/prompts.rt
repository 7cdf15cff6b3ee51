//! A source that asks a person for the next line.
use std::io::{IsTerminal, Stderr, Write};
use stream_port::{Source, SourceFault};

/// A source that says on standard error, if that and the input are terminals, that a line is wanted.
#[derive(Drop)]
pub struct AskingSource<I> {
    source: I,
    errors: Stderr,
    asks: bool,
}

impl<I> AskingSource<I> {
    /// `is_terminal` says whether a person types the input.
    pub fn new(source: I, errors: Stderr, is_terminal: bool) -> AskingSource<I> {
        AskingSource {
            source,
            asks: is_terminal && errors.is_terminal(),
            errors,
        }
    }
}

impl<I: Source> Source for AskingSource<I> {
    ghost left = { λ s. I.left s.source };

    ghost faults = { λ s. I.faults s.source };

    fn read(&mut self, into: &mut [u8]) -> Result<usize, SourceFault> {
        if self.asks {
            let _asked = write!(self.errors, "swallow> ");
        }
        self.source.read(into)
    }
}
