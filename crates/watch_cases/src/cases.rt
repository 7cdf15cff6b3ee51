//! Cases are carried out line by line.

use crate::archives;
use crate::words::mark;
use archive_store::Archive;
use case_words::{CaseFault, number};
use object_history::Mark;
use std::alloc::{AllocError, Global};
use std::mem;

/// What the lines so far have come to.
#[derive(Drop)]
pub struct Case {
    pub alloc: Global,
    /// The logs of the volumes, in their order.
    logs: Vec<Vec<Mark>>,
    archive: Option<Archive>,
}

/// Tells a line.
pub fn tell_line(said: &mut String, line: &str) -> Result<(), AllocError> {
    said.push_str(line)?;
    said.push('\n')
}

/// Tells why a line wasn't carried out, if it wasn't.
pub fn tell_end(
    alloc: Global,
    said: &mut String,
    end: Result<(), CaseFault>,
) -> Result<(), AllocError> {
    match end {
        Ok(()) => Ok(()),
        Err(fault) => said.push_str(fault.text(alloc)?.as_str()),
    }
}

impl Case {
    pub fn new(alloc: Global) -> Case {
        Case {
            alloc,
            logs: Vec::new(alloc),
            archive: None,
        }
    }

    /// The marks of the last log.
    pub fn log(&self) -> Result<&[Mark], CaseFault> {
        match self.logs.last() {
            Some(log) => Ok(log.as_slice()),
            None => Err(CaseFault::Log),
        }
    }

    /// The archive that was made last.
    pub fn archive(&self) -> Result<&Archive, CaseFault> {
        self.archive.as_ref().ok_or(CaseFault::Archive)
    }

    // Begins the log of a volume, the next one or the first anew.
    fn begin(&mut self, volume: usize) -> Result<(), CaseFault> {
        if volume == 0 {
            self.logs.clear();
        }
        if volume != self.logs.len() {
            return Err(CaseFault::Log);
        }
        self.logs.push(Vec::new(self.alloc))?;
        Ok(())
    }

    // Adds a mark to the last log.
    fn add(&mut self, mark: Mark) -> Result<(), CaseFault> {
        let Some(log) = self.logs.last_mut() else {
            return Err(CaseFault::Log);
        };
        log.push(mark)?;
        Ok(())
    }

    // The logs become those of the archive.
    fn join(&mut self) -> Result<(), CaseFault> {
        let count = self.logs.len();
        if count < 1 || count > 1000 {
            return Err(CaseFault::Log);
        }
        let logs = mem::replace(&mut self.logs, Vec::new(self.alloc));
        self.archive = Some(Archive::of(self.alloc, logs));
        Ok(())
    }

    // What comes of the words of a line that adds no mark.
    fn act(&mut self, words: &[&str], said: &mut String) -> Result<(), CaseFault> {
        match words {
            ["log", volume] => self.begin(number(volume)?),
            ["archive"] => self.join(),
            _ => archives::carry_out(self, words, said),
        }
    }

    /// Carries out a line that is printed.
    pub fn follow(&mut self, line: &str, said: &mut String) -> Result<(), CaseFault> {
        if line.is_empty() || line.starts_with('#') {
            return Ok(());
        }
        let words: Vec<&str> = line.split(' ').collect(self.alloc)?;
        match mark(self.alloc, words.as_slice())? {
            Some(mark) => self.add(mark),
            None => self.act(words.as_slice(), said),
        }
    }

    /// Tells a line, and carries it out.
    pub fn carry_out(&mut self, line: &str, said: &mut String) -> Result<(), AllocError> {
        tell_line(said, line)?;
        let end = self.follow(line, said);
        tell_end(self.alloc, said, end)
    }
}
