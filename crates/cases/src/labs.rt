//! The words of the laboratory and what it loses.

use case_words::CaseFault;
use laboratory::{Lab, LabFates, LabFault, lab_words};
use std::alloc::{AllocError, Global};
use stream_port::Fates;

/// The words of a line, with a bar between each two. A line without any has none.
pub fn barred<'a>(alloc: Global, text: &'a str) -> Result<Vec<&'a str>, AllocError> {
    if text.is_empty() {
        return Ok(Vec::new(alloc));
    }
    text.split('|').collect(alloc)
}

/// What these words have the laboratory do.
pub fn words_text(alloc: Global, words: &[&str]) -> Result<String, CaseFault> {
    match lab_words(alloc, words) {
        Ok(lab) => Ok(lab_text(alloc, &lab)?),
        Err(LabFault::Words) => Err(CaseFault::Words),
        Err(LabFault::NoMemory) => Err(CaseFault::NoMemory),
    }
}

fn lab_text(alloc: Global, lab: &Lab) -> Result<String, AllocError> {
    let (pages, lose, stop) = (lab.pages, lab.lose, lab.stop);
    let text = lab.text.as_str();
    format!(in alloc; "  pages {pages} lose {lose} stop {stop} words [{text}]\n")
}

/// Which of the messages with the numbers from 1 on a laboratory with this divisor loses.
pub fn lost_text(alloc: Global, lose: u32, count: u32) -> Result<String, AllocError> {
    let mut fates = LabFates::new(alloc, lose);
    let mut said = String::from_str(alloc, "  lost")?;
    for number in 0..count {
        let number = number.saturating_add(1);
        if fates.fate(number, 5)?.copies == 0 {
            said.push_str(format!(in alloc; " {number}")?.as_str())?;
        }
    }
    said.push('\n')?;
    Ok(said)
}
