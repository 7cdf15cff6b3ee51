//! Calls of the top call and of the laboratory over media in memory.

use case_setups::{Left, Pace, Said, Setup};
use case_words::CaseFault;
use held_shelf::HeldShelf;
use laboratory::{Kept, LabFates, lab, swallow};
use medium_port::{MediumName, MeetShelf, MemoryMedium, MemoryShelf, Shelf};
use session_command::session;
use std::alloc::{AllocError, Global};
use std::sync::Wait;
use std::thread::Threads;
use stream_port::{FixedClock, MemoryFates, MemorySink, MemorySource};

/// What came of a call over a shelf.
#[derive(Drop)]
pub struct Called {
    pub said: Said,
    pub media: Vec<Left>,
}

fn source_of(alloc: Global, pace: &Pace, plan: &[u8]) -> Result<MemorySource, CaseFault> {
    if pace.most == 0 {
        return Err(CaseFault::Pace);
    }
    Ok(MemorySource::new(plan.to_vec(alloc)?, pace.most, pace.fails.to_vec(alloc)?))
}

fn sink_of(alloc: Global, pace: &Pace) -> Result<MemorySink, CaseFault> {
    if pace.most == 0 {
        return Err(CaseFault::Pace);
    }
    Ok(MemorySink::new(alloc, pace.most, pace.fails.to_vec(alloc)?))
}

fn answered(alloc: Global, status: u8, sink: &MemorySink) -> Result<Said, CaseFault> {
    let bytes = sink.taken().to_vec(alloc)?;
    match String::from_utf8(bytes) {
        Ok(text) => Ok(Said { status, text }),
        Err(_) => Err(CaseFault::Text),
    }
}

// A medium that was handed back, by its name.
fn left_of(kept: Kept<MemoryMedium>) -> Left {
    let Kept {
        node,
        volume,
        medium,
    } = kept;
    Left {
        name: MediumName {
            kind: node.kind,
            number: node.number,
            volume,
        },
        medium,
    }
}

// The media that the call handed back, and behind them those of these names that it didn't take.
fn all_left(
    alloc: Global,
    mut shelf: MemoryShelf,
    names: Vec<MediumName>,
    media: Vec<Kept<MemoryMedium>>,
) -> Result<Vec<Left>, AllocError> {
    let mut left = Vec::new(alloc);
    for kept in media {
        left.push(left_of(kept))?;
    }
    for name in names {
        if let Ok(medium) = shelf.take(name.kind, name.number, name.volume) {
            left.push(Left { name, medium })?;
        }
    }
    Ok(left)
}

// The names of the media that were left.
fn names_of(alloc: Global, left: &[Left]) -> Result<Vec<MediumName>, AllocError> {
    let mut names = Vec::new(alloc);
    for one in left {
        names.push(one.name)?;
    }
    Ok(names)
}

// The status of a call, and the media that it handed back. What else is left of it is let go.
fn swallowed<R: Threads + Wait + Sync>(
    rt: &R,
    alloc: Global,
    words: &[&str],
    source: &mut MemorySource,
    sink: &mut MemorySink,
    shelf: &mut MemoryShelf,
    fates: MemoryFates,
) -> (u8, Vec<Kept<MemoryMedium>>) {
    let finish = swallow(
        rt,
        alloc,
        words,
        source,
        sink,
        shelf,
        fates,
        FixedClock::new(0),
    );
    (finish.status, finish.media.into_vec())
}

// Whether the words begin a session.
fn is_session(words: &[&str]) -> bool {
    match words.first() {
        Some(word) => *word == "session",
        None => false,
    }
}

// The status of a session, and no media: a session lets them go.
fn held<R: Threads + Wait + Sync>(
    rt: &R,
    alloc: Global,
    words: &[&str],
    source: &mut MemorySource,
    sink: &mut MemorySink,
    shelf: MemoryShelf,
    fates: MemoryFates,
) -> u8 {
    let mut shelf = HeldShelf::new(alloc, shelf);
    session(
        rt,
        alloc,
        words,
        source,
        sink,
        &mut shelf,
        fates,
        FixedClock::new(0),
    )
    .status
}

/// The call with these words and this plan, over what was set up.
pub fn call<R: Threads + Wait + Sync>(
    rt: &R,
    alloc: Global,
    setup: &Setup,
    plan: &[u8],
    words: &[&str],
    left: Vec<Left>,
) -> Result<Called, CaseFault> {
    let mut source = source_of(alloc, &setup.source, plan)?;
    let mut sink = sink_of(alloc, &setup.sink)?;
    let fates = MemoryFates::new(alloc, setup.rules.to_vec(alloc)?);
    let names = names_of(alloc, left.as_slice())?;
    let mut shelf = setup.shelf(alloc, left)?;
    if is_session(words) {
        let status = held(rt, alloc, words, &mut source, &mut sink, shelf, fates);
        let said = answered(alloc, status, &sink)?;
        return Ok(Called {
            said,
            media: Vec::new(alloc),
        });
    }
    let (status, media) = swallowed(rt, alloc, words, &mut source, &mut sink, &mut shelf, fates);
    let said = answered(alloc, status, &sink)?;
    let media = all_left(alloc, shelf, names, media)?;
    Ok(Called { said, media })
}

/// The call with these words over media that look so often for one another.
pub fn meet<R: Threads + Wait + Sync>(
    rt: &R,
    alloc: Global,
    looks: u64,
    plan: &[u8],
    words: &[&str],
) -> Result<Said, CaseFault> {
    let mut source = MemorySource::new(plan.to_vec(alloc)?, 4096, Vec::new(alloc));
    let mut sink = MemorySink::new(alloc, 4096, Vec::new(alloc));
    let mut shelf = MeetShelf::new(alloc, 64, looks)?;
    let finish = swallow(
        rt,
        alloc,
        words,
        &mut source,
        &mut sink,
        &mut shelf,
        LabFates::new(alloc, 0),
        FixedClock::new(0),
    );
    answered(alloc, finish.status, &sink)
}

/// The laboratory with these words.
pub fn in_lab<R: Threads + Wait + Sync>(
    rt: &R,
    alloc: Global,
    setup: &Setup,
    plan: &[u8],
    words: &[&str],
) -> Result<Said, CaseFault> {
    let mut source = source_of(alloc, &setup.source, plan)?;
    let mut sink = sink_of(alloc, &setup.sink)?;
    let finish = lab(rt, alloc, words, &mut source, &mut sink);
    answered(alloc, finish.status, &sink)
}
