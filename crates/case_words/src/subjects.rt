//! Each line of a file is carried out on what the lines are about.

use crate::faults::CaseFault;
use std::alloc::{AllocError, Global};
use std::fmt::Debug;

/// What the lines of a file are about.
pub trait Subject: Drop {
    /// Where nothing was begun, or a line wasn't carried out.
    fn nothing(alloc: Global) -> Self;

    /// What comes of a line, whose words these are.
    fn carry_out(&mut self, alloc: Global, line: &str, words: &[&str]) -> Result<String, CaseFault>;
}

/// What is printed of an answer.
pub fn told<T: Debug>(alloc: Global, answer: &T) -> Result<String, CaseFault> {
    Ok(format!(in alloc; "  {answer:?}\n")?)
}

// What comes of a line. Where it isn't carried out nothing is begun.
fn come_of<S: Subject>(alloc: Global, subject: &mut S, line: &str) -> Result<String, AllocError> {
    let words: Vec<&str> = line.split(' ').collect(alloc)?;
    match subject.carry_out(alloc, line, words.as_slice()) {
        Ok(said) => Ok(said),
        Err(fault) => {
            *subject = S::nothing(alloc);
            fault.text(alloc)
        }
    }
}

// Prints a line, and behind it what came of it. Of a remark and of an empty line nothing comes.
fn carry_one<S: Subject>(
    alloc: Global,
    subject: &mut S,
    line: &str,
    said: &mut String,
) -> Result<(), AllocError> {
    said.push_str(line)?;
    said.push('\n')?;
    if line.is_empty() || line.starts_with('#') {
        return Ok(());
    }
    said.push_str(come_of(alloc, subject, line)?.as_str())
}

/// Carries out the lines of a text. Each is printed, and behind it what came of it.
pub fn carry_all<S: Subject>(
    alloc: Global,
    text: &str,
    said: &mut String,
) -> Result<(), AllocError> {
    let mut subject = S::nothing(alloc);
    for line in text.lines() {
        carry_one(alloc, &mut subject, line, said)?;
    }
    Ok(())
}
