//! What calls in turn have come to.

use case_words::CaseFault;
use std::alloc::{AllocError, Global};

/// What came of one of the calls.
#[derive(Drop)]
pub struct Ending {
    pub status: u8,
    /// The lines that show its text.
    pub text: String,
    /// The lines that show the call over the media that were left. Empty where there was none.
    pub again: String,
    pub crashes: u64,
}

/// Calls in turn that came to the same.
#[derive(Drop)]
struct Range {
    first: u64,
    last: u64,
    ending: Ending,
}

/// What the calls came to, in turn.
#[derive(Drop)]
pub struct Table {
    alloc: Global,
    ranges: Vec<Range>,
}

impl Range {
    fn holds(&self, ending: &Ending) -> bool {
        let was = &self.ending;
        let is_same_again = was.again.as_str() == ending.again.as_str();
        was.status == ending.status
            && was.text.as_str() == ending.text.as_str()
            && (is_same_again || was.again.is_empty() || ending.again.is_empty())
    }

    fn join(&mut self, number: u64, ending: Ending) {
        self.last = number;
        self.ending.crashes = self.ending.crashes.max(ending.crashes);
        if self.ending.again.is_empty() {
            self.ending.again = ending.again;
        }
    }

    // Of the calls in the last range at least so many are reported, and no greater number.
    fn head(&self, alloc: Global, least: u64) -> Result<String, AllocError> {
        let (first, last, status) = (self.first, self.last, self.ending.status);
        if last >= least {
            format!(in alloc; "  calls {first} to {least} or more: status {status}\n")
        } else {
            format!(in alloc; "  calls {first} to {last}: status {status}\n")
        }
    }

    // How many crashes there were, if any.
    fn crashes(&self, alloc: Global) -> Result<String, AllocError> {
        match self.ending.crashes {
            0 => Ok(String::new(alloc)),
            crashes => format!(in alloc; "    at most {crashes} crashes\n"),
        }
    }

    fn show(&self, alloc: Global, least: u64) -> Result<String, AllocError> {
        let (head, crashes) = (self.head(alloc, least)?, self.crashes(alloc)?);
        let (text, again) = (self.ending.text.as_str(), self.ending.again.as_str());
        format!(in alloc; "{}{text}{again}{}", head.as_str(), crashes.as_str())
    }
}

impl Table {
    pub fn new(alloc: Global) -> Table {
        Table {
            alloc,
            ranges: Vec::new(alloc),
        }
    }

    /// Adds what came of the call with this number.
    pub fn add(&mut self, number: u64, ending: Ending) -> Result<(), CaseFault> {
        if let Some(range) = self.ranges.last_mut() {
            if range.holds(&ending) {
                range.join(number, ending);
                return Ok(());
            }
        }
        self.ranges.push(Range {
            first: number,
            last: number,
            ending,
        })?;
        Ok(())
    }

    /// What it shows. No call's number above the least one is reported.
    pub fn show(&self, least: u64) -> Result<String, AllocError> {
        let mut said = String::new(self.alloc);
        for range in &self.ranges {
            said.push_str(range.show(self.alloc, least)?.as_str())?;
        }
        Ok(said)
    }
}
