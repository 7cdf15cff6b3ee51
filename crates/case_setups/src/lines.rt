//! What the words of a line name.

use case_words::{CaseFault, number};
use medium_port::{MediumName, Stop, StopAt};
use pseudo_time::NodeKind;
use stream_port::{Fate, FateRule};

/// A stream of a call.
#[derive(Clone, Copy)]
pub enum Stream {
    Source,
    Sink,
}

/// The stream with this name.
pub fn stream_named(name: &str) -> Result<Stream, CaseFault> {
    match name {
        "source" => Ok(Stream::Source),
        "sink" => Ok(Stream::Sink),
        _ => Err(CaseFault::Line),
    }
}

/// The medium that a kind and a number, or a number and a volume, name.
pub fn name(kind: &str, word: &str) -> Result<MediumName, CaseFault> {
    let kind = match kind {
        "repository" => NodeKind::Repository,
        "broker" => NodeKind::Broker,
        _ => return Err(CaseFault::Line),
    };
    let (node, volume) = word.split_once('-').unwrap_or((word, "0"));
    Ok(MediumName {
        kind,
        number: number(node)?,
        volume: number(volume)?,
    })
}

/// A stop, from the words behind its medium's name.
pub fn stop(words: &[&str]) -> Result<Stop, CaseFault> {
    match words {
        ["call", call, rest @ ..] => tear(StopAt::Call(number(call)?), rest),
        ["write", page, at, rest @ ..] => tear(written(page, at)?, rest),
        _ => Err(CaseFault::Line),
    }
}

// A stop at a write to this place.
fn written(page: &str, at: &str) -> Result<StopAt, CaseFault> {
    Ok(StopAt::Write {
        page: number(page)?,
        at: number(at)?,
    })
}

// A stop there, from `keep K fill F`.
fn tear(at: StopAt, words: &[&str]) -> Result<Stop, CaseFault> {
    match words {
        ["keep", keep, "fill", fill] => Ok(Stop {
            at,
            keep: number(keep)?,
            fill: number(fill)?,
        }),
        _ => Err(CaseFault::Line),
    }
}

/// A moving stop, from `behind B keep K fill F`.
pub fn moving(words: &[&str]) -> Result<Stop, CaseFault> {
    match words {
        ["behind", call, rest @ ..] => tear(StopAt::Call(number(call)?), rest),
        _ => Err(CaseFault::Line),
    }
}

// The tag of a kind of message.
fn tag(name: &str) -> Result<u8, CaseFault> {
    Ok(match name {
        "begin" => 1,
        "begun" => 2,
        "read" => 3,
        "value" => 4,
        "write" => 5,
        "stored" => 6,
        "later-read" => 7,
        "later-version" => 8,
        "ended" => 9,
        "commit" => 10,
        "withdraw" => 11,
        "decided" => 12,
        "ask" => 13,
        "tell" => 14,
        _ => return Err(CaseFault::Line),
    })
}

/// What comes of the nth message of a kind, from `KIND N copies C overtake O hold H`.
pub fn fate(words: &[&str]) -> Result<FateRule, CaseFault> {
    let [name, nth, rest @ ..] = words else {
        return Err(CaseFault::Line);
    };
    Ok(FateRule {
        tag: tag(name)?,
        nth: number(nth)?,
        fate: come_of(rest)?,
    })
}

// What comes of a message, from `copies C overtake O hold H`.
fn come_of(words: &[&str]) -> Result<Fate, CaseFault> {
    match words {
        ["copies", copies, "overtake", overtake, "hold", hold] => Ok(Fate {
            copies: number(copies)?,
            overtake: number(overtake)?,
            hold: number(hold)?,
        }),
        _ => Err(CaseFault::Line),
    }
}
