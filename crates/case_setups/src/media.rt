//! What lines say of the next call and of its media.

use crate::lines::{fate, moving, name, stop};
use crate::setups::{Pace, Patch, Setup};
use case_words::{CaseFault, bytes, number};
use medium_port::MediumName;
use std::alloc::Global;

// The bytes of a page whose gate is open, with these log records.
fn page_of(alloc: Global, words: &[&str]) -> Result<Vec<u8>, CaseFault> {
    let records = bytes(alloc, words)?;
    if records.len() > 4092 {
        return Err(CaseFault::Place);
    }
    let [high, low] = (records.len() as u16).to_be_bytes();
    let mut page = vec![in alloc; 0xA5, 1, high, low]?;
    page.extend_from_slice(records.as_slice())?;
    Ok(page)
}

// Adds bytes to a medium.
fn patch(setup: &mut Setup, patch: Patch) -> Result<(), CaseFault> {
    setup.name(patch.name)?;
    setup.patches.push(patch)?;
    Ok(())
}

fn add_size(setup: &mut Setup, name: MediumName, words: &[&str]) -> Result<(), CaseFault> {
    let [pages] = words else {
        return Err(CaseFault::Line);
    };
    let pages = number(pages)?;
    setup.name(name)?;
    setup.sizes.push((name, pages))?;
    Ok(())
}

fn add_missing(setup: &mut Setup, name: MediumName) -> Result<(), CaseFault> {
    setup.missing.push(name)?;
    Ok(())
}

fn add_stop(setup: &mut Setup, name: MediumName, words: &[&str]) -> Result<(), CaseFault> {
    let stop = stop(words)?;
    setup.name(name)?;
    setup.stops.push((name, stop))?;
    Ok(())
}

fn add_moving(setup: &mut Setup, name: MediumName, words: &[&str]) -> Result<(), CaseFault> {
    let stop = moving(words)?;
    setup.name(name)?;
    setup.moving.push((name, stop))?;
    Ok(())
}

// The records `P HEX..` on a page of a medium.
fn records_on(alloc: Global, name: MediumName, words: &[&str]) -> Result<Patch, CaseFault> {
    let [page, words @ ..] = words else {
        return Err(CaseFault::Line);
    };
    Ok(Patch {
        name,
        page: number(page)?,
        at: 0,
        bytes: page_of(alloc, words)?,
    })
}

// The bytes `P A HEX..` on a page of a medium, from a place on.
fn bytes_on(alloc: Global, name: MediumName, words: &[&str]) -> Result<Patch, CaseFault> {
    let [page, at, words @ ..] = words else {
        return Err(CaseFault::Line);
    };
    Ok(Patch {
        name,
        page: number(page)?,
        at: number(at)?,
        bytes: bytes(alloc, words)?,
    })
}

// The records `FROM TO HEX..` on the first page of each of these volumes.
fn fill(
    alloc: Global,
    setup: &mut Setup,
    name: MediumName,
    words: &[&str],
) -> Result<(), CaseFault> {
    let [from, to, words @ ..] = words else {
        return Err(CaseFault::Line);
    };
    let (from, to) = (number::<u32>(from)?, number::<u32>(to)?);
    for volume in from..=to {
        let name = MediumName { volume, ..name };
        let bytes = page_of(alloc, words)?;
        patch(
            setup,
            Patch {
                name,
                page: 0,
                at: 0,
                bytes,
            },
        )?;
    }
    Ok(())
}

// Sets up what a line says of this medium:
// - `medium KIND N P`: how many pages it has.
// - `missing KIND N`: it can't be taken.
// - `stop KIND N call C keep K fill F` or `stop KIND N write P A keep K fill F`: a stop of it.
// - `moving KIND N behind B keep K fill F`: a stop of it, so many calls behind the one at which `stops-each` is.
// - `page KIND N P HEX..`: log records on a page of it. The page's gate is open.
// - `fill KIND N FROM TO HEX..`: log records on the first page of each of these volumes of a node. The page's gate
//   is open.
// - `bytes KIND N P A HEX..`: bytes on a page of it, from this place on.
fn set_medium(
    alloc: Global,
    setup: &mut Setup,
    verb: &str,
    name: MediumName,
    words: &[&str],
) -> Result<(), CaseFault> {
    match verb {
        "medium" => add_size(setup, name, words),
        "missing" => add_missing(setup, name),
        "stop" => add_stop(setup, name, words),
        "moving" => add_moving(setup, name, words),
        "page" => patch(setup, records_on(alloc, name, words)?),
        "fill" => fill(alloc, setup, name, words),
        "bytes" => patch(setup, bytes_on(alloc, name, words)?),
        _ => Err(CaseFault::Line),
    }
}

// Sets up what a line says of a medium. It is named by `KIND N`, where KIND is `repository` or `broker`; a volume V
// above 0 of a node by `KIND N-V`.
fn on_medium(
    alloc: Global,
    setup: &mut Setup,
    verb: &str,
    words: &[&str],
) -> Result<(), CaseFault> {
    match words {
        [kind, number, words @ ..] => set_medium(alloc, setup, verb, name(kind, number)?, words),
        _ => Err(CaseFault::Line),
    }
}

// How a stream moves, and which of its calls fail.
fn pace_of(alloc: Global, words: &[&str]) -> Result<Pace, CaseFault> {
    let [most, words @ ..] = words else {
        return Err(CaseFault::Line);
    };
    let most = number(most)?;
    let mut fails = Vec::new(alloc);
    for word in words {
        fails.push(number(word)?)?;
    }
    Ok(Pace { most, fails })
}

fn set_pages(setup: &mut Setup, words: &[&str]) -> Result<(), CaseFault> {
    let [pages] = words else {
        return Err(CaseFault::Line);
    };
    setup.pages = number(pages)?;
    Ok(())
}

fn set_pace(alloc: Global, pace: &mut Pace, words: &[&str]) -> Result<(), CaseFault> {
    *pace = pace_of(alloc, words)?;
    Ok(())
}

fn add_fate(setup: &mut Setup, words: &[&str]) -> Result<(), CaseFault> {
    setup.rules.push(fate(words)?)?;
    Ok(())
}

/// Sets up what a line says of the next call:
/// - `pages P`: how many pages a blank medium has.
/// - `fate KIND N copies C overtake O hold H`: what comes of the nth message of a kind.
/// - `source MOST FAIL..`: how many bytes the source gives a call, and which of its calls fail.
/// - `sink MOST FAIL..`: how many bytes the sink takes a call, and which of its calls fail.
/// - `again`: the media are those that the call before this one left, with those that it didn't take.
///
/// Any other line is about a medium.
pub fn set_call(
    alloc: Global,
    setup: &mut Setup,
    verb: &str,
    words: &[&str],
) -> Result<(), CaseFault> {
    if verb == "again" && words.is_empty() {
        setup.again = true;
        return Ok(());
    }
    match verb {
        "pages" => set_pages(setup, words),
        "fate" => add_fate(setup, words),
        "source" => set_pace(alloc, &mut setup.source, words),
        "sink" => set_pace(alloc, &mut setup.sink, words),
        _ => on_medium(alloc, setup, verb, words),
    }
}
