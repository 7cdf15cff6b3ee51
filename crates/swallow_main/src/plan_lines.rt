//! What a person is told about a faulty plan: its line, and what was expected there.

use plan_form::{PlanFault, PlanKind, parse};
use script_form::{ParseKind, first_line};
use std::alloc::{AllocError, Global};
use std::str;
use stream_port::{Source, SourceFault};

/// The most bytes that are kept: as many as the longest plan has.
const MOST_BYTES: usize = 4_194_304;

/// The most bytes of a line that are shown.
const MOST_SHOWN: usize = 200;

// What a source gave.
#[derive(Drop)]
struct Given {
    bytes: Vec<u8>,
    // Whether all that was given is kept.
    whole: bool,
}

impl Given {
    fn keep(&mut self, bytes: &[u8]) {
        let fits = self.bytes.len().saturating_add(bytes.len()) <= MOST_BYTES;
        self.whole = self.whole && fits && self.bytes.extend_from_slice(bytes).is_ok();
    }
}

/// A source that keeps what it gave. It tells the bytes that the other tells.
#[derive(Drop)]
pub struct KeptSource<S> {
    source: S,
    given: Given,
}

impl<S> KeptSource<S> {
    /// A source over this one, which gave nothing yet.
    pub fn new(alloc: Global, source: S) -> KeptSource<S> {
        KeptSource {
            source,
            given: Given {
                bytes: Vec::new(alloc),
                whole: true,
            },
        }
    }

    /// What it gave. None if that was longer than a plan may be, or memory ran out for it.
    pub fn kept(&self) -> Option<&[u8]> {
        if self.given.whole {
            Some(self.given.bytes.as_slice())
        } else {
            None
        }
    }
}

impl<S: Source> Source for KeptSource<S> {
    ghost left = { λ s. S.left s.source };

    ghost faults = { λ s. S.faults s.source };

    fn read(&mut self, into: &mut [u8]) -> Result<usize, SourceFault> {
        let count = self.source.read(into)?;
        self.given.keep(into.get(..count).unwrap_or(&[]));
        Ok(count)
    }
}

// The line of the text with this number, counted from 1. Empty if there is none.
fn line_at(text: &[u8], number: u32) -> &[u8] {
    let mut rest = text;
    for at in 1..=number {
        if rest.is_empty() {
            return rest;
        }
        let (line, after) = first_line(rest);
        if at == number {
            return line;
        }
        rest = after;
    }
    &[]
}

// What a line of a script is expected to be.
fn expected_of_script(kind: ParseKind) -> &'static str {
    match kind {
        ParseKind::Token => "a character or a word here has no meaning in a script",
        ParseKind::Range => {
            "a number, a text, a name or an object here is outside its limits, or the plan has no such repository"
        }
        ParseKind::Syntax => {
            "expected `let N = E`, `read N O`, `write O E`, `print E`, `if E`, `else`, `repeat E`, `end` or `withdraw`"
        }
        ParseKind::Block => {
            "expected `end` for each `if` and `repeat` before `done`, and `else` once between an `if` and its `end`"
        }
        ParseKind::Depth => "an expression or a block here is deeper than 16",
        ParseKind::Size => "a script has at most 200 lines and 3,900 bytes",
    }
}

// What is expected there.
fn expected(kind: PlanKind) -> &'static str {
    match kind {
        PlanKind::Size => "a plan has at most 4,194,304 bytes",
        PlanKind::Header => "expected `swallow plan 1`, the first line of a plan",
        PlanKind::Run => "expected `run N` with a number from 1 to 4,294,967,295",
        PlanKind::Repositories => "expected `repositories R` with a number from 1 to 16",
        PlanKind::Brokers => "expected `brokers B` with a number from 1 to 16",
        PlanKind::Act => {
            "expected `act broker B home H timeout T tries N`, with `clock C` after it or not, and B and H of this plan"
        }
        PlanKind::Acts => "a plan has at most 10,000 acts",
        PlanKind::Script(kind) => expected_of_script(kind),
        PlanKind::End => "expected `done`, which ends the script of an act",
    }
}

// The text of a line, if it can be shown as it is.
fn shown(line: &[u8]) -> &str {
    match str::from_utf8(line) {
        Ok(text) if text.len() <= MOST_SHOWN => text,
        _ => "",
    }
}

// Shows the line with this number, unless it is empty, and says what was expected there.
fn text_of(alloc: Global, plan: &[u8], line: u32, kind: PlanKind) -> Result<String, AllocError> {
    let text = shown(line_at(plan, line));
    let wanted = expected(kind);
    if text.is_empty() {
        return format!(in alloc; "swallow: {}", wanted);
    }
    format!(in alloc; "swallow: line {}: {}\nswallow: {}", line, text, wanted)
}

/// What is said of a faulty plan: the first faulty line, and what was expected there. None if nothing is
/// wrong with it, or memory ran out.
pub fn fault_text(alloc: Global, plan: &[u8]) -> Option<String> {
    match parse(alloc, plan) {
        Err(PlanFault::Fault { line, kind }) => text_of(alloc, plan, line, kind).ok(),
        Err(PlanFault::NoMemory) => None,
        Ok(_) => None,
    }
}
