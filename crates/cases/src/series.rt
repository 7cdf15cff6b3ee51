//! A call again and again, with one thing that moves.

use crate::calls::{Called, call};
use case_setups::{
    Ending, Left, Pace, Said, Setup, Shown, Stream, Table, acts_of, crashes_of, is_down, lines_of,
    restarted,
};
use case_words::CaseFault;
use std::alloc::{AllocError, Global};
use std::sync::Wait;
use std::thread::Threads;
use stream_port::FateRule;

/// The most calls that are tried in turn.
const MOST_CALLS: u64 = 10_000;

/// What stays the same in each of the calls.
#[derive(Clone, Copy)]
pub struct Series<'a> {
    pub alloc: Global,
    pub plan: &'a [u8],
    pub words: &'a [&'a str],
    pub shown: &'a [Shown],
}

/// The call with the moving stops at each call of a medium in turn, from this one on, up to the first at which
/// none is met.
pub fn stops_each<R: Threads + Wait + Sync>(
    rt: &R,
    series: &Series<'_>,
    setup: &mut Setup,
    from: u64,
) -> Result<Table, CaseFault> {
    let mut table = Table::new(series.alloc);
    for number in from..=MOST_CALLS {
        setup.at_call = number;
        match stopped(rt, series, setup)? {
            Some(ending) => table.add(number, ending)?,
            None => break,
        }
    }
    Ok(table)
}

// Whether texts of the command have no line of the wire.
fn has_no_wire(verb: &str) -> bool {
    match verb {
        "retire" | "watch" | "asof" | "audit" | "snapshot" | "settle" | "replay" => true,
        _ => false,
    }
}

// The crashes that the text of a call with these words tells of: none, where it has no line of the wire.
fn crashes_in(words: &[&str], text: &str) -> Option<u64> {
    match words {
        [verb, ..] if has_no_wire(verb) => Some(0),
        _ => crashes_of(text),
    }
}

// What comes of the call with its stops. None where none is met.
fn stopped<R: Threads + Wait + Sync>(
    rt: &R,
    series: &Series<'_>,
    setup: &Setup,
) -> Result<Option<Ending>, CaseFault> {
    let Series {
        alloc,
        plan,
        words,
        ..
    } = *series;
    let Called { said, media } = call(rt, alloc, setup, plan, words, Vec::new(alloc))?;
    let Some(crashes) = crashes_in(words, said.text.as_str()) else {
        return Err(CaseFault::Text);
    };
    if crashes == 0 && !is_down(&said) {
        return Ok(None);
    }
    let again = if is_down(&said) || crashes == setup.moving.len() as u64 {
        called_again(rt, series, setup, &said, media)?
    } else {
        String::new(alloc)
    };
    Ok(Some(ending_of(series, &said, again, crashes)?))
}

// What a call has come to, which said this.
fn ending_of(
    series: &Series<'_>,
    said: &Said,
    again: String,
    crashes: u64,
) -> Result<Ending, AllocError> {
    Ok(Ending {
        status: said.status,
        text: lines_of(series.alloc, series.shown, said, "    ")?,
        again,
        crashes,
    })
}

// The media of a call, once the whole system began anew behind so many calls.
fn restarted_all(alloc: Global, media: Vec<Left>, calls: u64) -> Result<Vec<Left>, AllocError> {
    let mut left = Vec::new(alloc);
    for one in media {
        let Left { name, medium } = one;
        left.push(Left {
            name,
            medium: restarted(medium, calls),
        })?;
    }
    Ok(left)
}

// What shows the same call over the media that were left. Where all was done before, all is as it was.
fn called_again<R: Threads + Wait + Sync>(
    rt: &R,
    series: &Series<'_>,
    setup: &Setup,
    before: &Said,
    media: Vec<Left>,
) -> Result<String, CaseFault> {
    let Series {
        alloc,
        plan,
        words,
        ..
    } = *series;
    let left = restarted_all(alloc, media, setup.at_call)?;
    let still = setup.with_fates(alloc)?;
    let said = call(rt, alloc, &still, plan, words, left)?.said;
    Ok(again_text(series, before, &said)?)
}

// What the call that was made again shows.
fn again_text(series: &Series<'_>, before: &Said, said: &Said) -> Result<String, AllocError> {
    let (alloc, status) = (series.alloc, said.status);
    let lines = lines_of(alloc, series.shown, said, "      ")?;
    let how = if before.status == 0 {
        how_again(before.text.as_str(), said.text.as_str())
    } else {
        ""
    };
    format!(in alloc; "    again: status {status}\n{}{how}", lines.as_str())
}

// How a text stands to the one before it.
fn how_again(before: &str, text: &str) -> &'static str {
    if acts_of(before) != acts_of(text) {
        "      otherwise than before\n"
    } else if text.ends_with("wire messages 0 asks 0 ticks 0 crashes 0\n") {
        "      the same acts, and no message\n"
    } else {
        "      the same, and messages\n"
    }
}

// What comes of the call with one fate more.
fn fated<R: Threads + Wait + Sync>(
    rt: &R,
    series: &Series<'_>,
    setup: &mut Setup,
    rule: FateRule,
) -> Result<Ending, CaseFault> {
    let Series {
        alloc,
        plan,
        words,
        ..
    } = *series;
    setup.rules.push(rule)?;
    let said = call(rt, alloc, setup, plan, words, Vec::new(alloc))?.said;
    let _ = setup.rules.pop();
    Ok(ending_of(series, &said, String::new(alloc), 0)?)
}

/// The call where in turn each of the first messages of a kind has this fate, up to that of the rule.
pub fn fates_each<R: Threads + Wait + Sync>(
    rt: &R,
    series: &Series<'_>,
    setup: &mut Setup,
    rule: FateRule,
) -> Result<Table, CaseFault> {
    let mut table = Table::new(series.alloc);
    for number in 0..rule.nth {
        let nth = number.saturating_add(1);
        let ending = fated(rt, series, setup, FateRule { nth, ..rule })?;
        table.add(u64::from(nth), ending)?;
    }
    Ok(table)
}

/// The call where each call of a stream fails in turn, up to the first that isn't made.
pub fn fails_each<R: Threads + Wait + Sync>(
    rt: &R,
    series: &Series<'_>,
    setup: &mut Setup,
    stream: Stream,
    most: usize,
) -> Result<Table, CaseFault> {
    let Series {
        alloc,
        plan,
        words,
        ..
    } = *series;
    let whole = call(rt, alloc, setup, plan, words, Vec::new(alloc))?.said;
    let mut table = Table::new(alloc);
    for number in 1..=MOST_CALLS {
        fail_at(alloc, setup, stream, most, number)?;
        let said = call(rt, alloc, setup, plan, words, Vec::new(alloc))?.said;
        if said.status == whole.status {
            break;
        }
        let ending = failed(series, &whole, said, most, number)?;
        table.add(number, ending)?;
    }
    Ok(table)
}

// Lets the call of a stream with this number fail.
fn fail_at(
    alloc: Global,
    setup: &mut Setup,
    stream: Stream,
    most: usize,
    number: u64,
) -> Result<(), CaseFault> {
    let pace = Pace {
        most,
        fails: vec![in alloc; number]?,
    };
    match stream {
        Stream::Source => setup.source = pace,
        Stream::Sink => setup.sink = pace,
    }
    Ok(())
}

// What came of a call whose stream has failed at the call with this number.
fn failed(
    series: &Series<'_>,
    whole: &Said,
    said: Said,
    most: usize,
    number: u64,
) -> Result<Ending, CaseFault> {
    let alloc = series.alloc;
    let taken = number.saturating_sub(1).saturating_mul(most as u64);
    let is_front = said.text.len() as u64 == taken
        && whole.text.as_str().starts_with(said.text.as_str());
    if !is_front {
        return Ok(ending_of(series, &said, String::new(alloc), 0)?);
    }
    Ok(Ending {
        status: said.status,
        text: String::from_str(alloc, "    what the calls before it took\n")?,
        again: String::new(alloc),
        crashes: 0,
    })
}
