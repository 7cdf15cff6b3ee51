//! How texts and media are shown.

use crate::setups::{Left, reopened};
use case_words::CaseFault;
use medium_port::{Medium, MediumName, MemoryMedium};
use pseudo_time::NodeKind;
use std::alloc::{AllocError, Global};

/// What a call answers, and what it wrote.
#[derive(Drop)]
pub struct Said {
    pub status: u8,
    pub text: String,
}

// Adds a line behind these spaces.
fn push_line(lines: &mut String, before: &str, line: &str) -> Result<(), AllocError> {
    lines.push_str(before)?;
    lines.push_str(line)?;
    lines.push('\n')
}

/// A status and a text, each line behind two spaces.
pub fn show(alloc: Global, status: u8, text: &str) -> Result<String, AllocError> {
    let mut lines = format!(in alloc; "  status {status}\n")?;
    for line in text.lines() {
        push_line(&mut lines, "  ", line)?;
    }
    Ok(lines)
}

// The word with which a line begins.
fn first_word(line: &str) -> &str {
    match line.split_once(' ') {
        Some((word, _)) => word,
        None => line,
    }
}

/// The lines that are shown of texts with a status: those that begin with one of these words.
#[derive(Drop)]
pub struct Shown {
    pub status: u8,
    /// With a space between each two.
    pub words: String,
}

// Whether a line of a text with this status is shown. Where nothing is said of the status, all lines but that
// of the wire are.
fn is_shown(shown: &[Shown], status: u8, line: &str) -> bool {
    let first = first_word(line);
    for of in shown {
        if of.status == status {
            return of.words.as_str().split(' ').any(|word| word == first);
        }
    }
    first != "wire"
}

/// The lines that are shown of what a call said, each behind so many spaces.
pub fn lines_of(
    alloc: Global,
    shown: &[Shown],
    said: &Said,
    before: &str,
) -> Result<String, AllocError> {
    let mut lines = String::new(alloc);
    for line in said.text.as_str().lines() {
        if is_shown(shown, said.status, line) {
            push_line(&mut lines, before, line)?;
        }
    }
    Ok(lines)
}

/// What stands in front of the line of the wire.
pub fn acts_of(text: &str) -> &str {
    match text.split_once("wire messages ") {
        Some((acts, _)) => acts,
        None => text,
    }
}

/// The crashes in the line of the wire.
pub fn crashes_of(text: &str) -> Option<u64> {
    let (_, wire) = text.split_once("wire messages ")?;
    let (_, crashes) = wire.split_once(" crashes ")?;
    crashes.trim().parse().ok()
}

/// Whether a node is reported as down.
pub fn is_down(said: &Said) -> bool {
    said.text.starts_with("down ") || said.text.contains("\ndown ")
}

fn name_of(kind: NodeKind) -> &'static str {
    match kind {
        NodeKind::Repository => "repository",
        NodeKind::Broker => "broker",
    }
}

// The bytes of the log records on a page, where its gate is open.
fn records_of(bytes: &[u8; 4096]) -> Option<&[u8]> {
    if bytes[0] != 0xA5 {
        return None;
    }
    let length = u16::from_be_bytes([bytes[2], bytes[3]]);
    let head = if bytes[1] == 1 { 4 } else { 5 };
    let (_, body) = bytes.split_at_checked(head)?;
    let (records, _) = body.split_at_checked(usize::from(length))?;
    Some(records)
}

// Which piece of a log record stands on a page. None where whole ones do.
fn piece_of(bytes: &[u8; 4096]) -> Option<&'static str> {
    if bytes[1] != 2 {
        return None;
    }
    match bytes[4] {
        1 => Some("first"),
        2 => Some("middle"),
        3 => Some("last"),
        _ => None,
    }
}

/// What is shown of a page.
#[derive(Clone, Copy)]
pub enum Part {
    /// Its log records, or which piece of one, and how long it is.
    Records,
    /// Its first five bytes.
    Head,
}

// The log records on a page, or which piece of one, and how long it is.
fn show_records(alloc: Global, bytes: &[u8; 4096]) -> Result<String, AllocError> {
    match (records_of(bytes), piece_of(bytes)) {
        (Some(records), None) => hex::encode(alloc, records),
        (Some(records), Some(piece)) => {
            let size = records.len();
            format!(in alloc; "{piece} {size}")
        }
        (None, _) => String::from_str(alloc, "spoiled"),
    }
}

// This part of a page behind the name of its medium.
fn show_page(
    alloc: Global,
    name: &str,
    page: u32,
    bytes: &[u8; 4096],
    part: Part,
) -> Result<String, AllocError> {
    let shown = match part {
        Part::Records => show_records(alloc, bytes)?,
        Part::Head => hex::encode(alloc, &bytes[..5])?,
    };
    format!(in alloc; "  {name} page {page} {}\n", shown.as_str())
}

// The pages of a medium on which anything stands.
fn shown_pages(
    alloc: Global,
    name: &str,
    medium: MemoryMedium,
    part: Part,
) -> Result<String, CaseFault> {
    let mut medium = reopened(medium)?;
    let mut said = String::new(alloc);
    let pages = medium.pages();
    for page in 0..pages {
        let mut bytes = [0u8; 4096];
        if medium.read(page, &mut bytes).is_err() {
            return Err(CaseFault::Medium);
        }
        if bytes.iter().any(|byte| *byte != 0) {
            said.push_str(show_page(alloc, name, page, &bytes, part)?.as_str())?;
        }
    }
    Ok(said)
}

// The name of a medium. That of volume 0 is its node's.
fn text_of(alloc: Global, name: MediumName) -> Result<String, AllocError> {
    let (kind, number, volume) = (name_of(name.kind), name.number, name.volume);
    if volume == 0 {
        format!(in alloc; "{kind} {number}")
    } else {
        format!(in alloc; "{kind} {number}-{volume}")
    }
}

/// This part of the pages of a medium that was left. A blank volume above 0 isn't shown.
pub fn show_medium(alloc: Global, left: Left, part: Part) -> Result<String, CaseFault> {
    let Left { name, medium } = left;
    let (count, volume) = (medium.pages(), name.volume);
    let name = text_of(alloc, name)?;
    let pages = shown_pages(alloc, name.as_str(), medium, part)?;
    if volume != 0 && pages.is_empty() {
        return Ok(pages);
    }
    Ok(format!(in alloc; "  {} pages {count}\n{}", name.as_str(), pages.as_str())?)
}
