//! What is asked of an archive.

use crate::cases::Case;
use crate::plain::scanned;
use crate::shows;
use archive_store::{Archive, AsOfFault};
use case_words::{CaseFault, number, object, time};
use pseudo_time::{PseudoTime, Stamp};
use std::alloc::Global;

// Why there is no map as of a pseudotime.
fn tell_fault(alloc: Global, fault: &AsOfFault, said: &mut String) -> Result<(), CaseFault> {
    match fault {
        AsOfFault::Undecided { object, start } => {
            Ok(shows::refused(alloc, "undecided", *object, *start, said)?)
        }
        AsOfFault::NoMemory => Err(CaseFault::NoMemory),
    }
}

// The map as of the pseudotime, as the archive has it.
fn asof(
    alloc: Global,
    archive: &Archive,
    at: PseudoTime,
    said: &mut String,
) -> Result<(), CaseFault> {
    match archive.asof(at) {
        Ok(list) => Ok(shows::list(alloc, list.as_slice(), said)?),
        Err(fault) => tell_fault(alloc, &fault, said),
    }
}

// The map as of the pseudotime, by a plain scan.
fn scan(
    alloc: Global,
    archive: &Archive,
    at: PseudoTime,
    said: &mut String,
) -> Result<(), CaseFault> {
    let marks = archive.joined()?;
    scanned(alloc, marks.as_slice(), at, said)?;
    Ok(())
}

// Whether both agree at the first pseudotime of a clock.
fn is_alike(alloc: Global, archive: &Archive, clock: u64) -> Result<bool, CaseFault> {
    let stamp = Stamp::new(clock, 1, 1).ok_or(CaseFault::Line)?;
    let at = PseudoTime::new(stamp, 1).ok_or(CaseFault::Line)?;
    let mut watched = String::new(alloc);
    asof(alloc, archive, at, &mut watched)?;
    let mut scanned = String::new(alloc);
    scan(alloc, archive, at, &mut scanned)?;
    Ok(watched.as_str() == scanned.as_str())
}

// The first of these clocks at which they don't.
fn alike(
    alloc: Global,
    archive: &Archive,
    first: u64,
    last: u64,
    said: &mut String,
) -> Result<(), CaseFault> {
    for clock in first..last.saturating_add(1) {
        if !is_alike(alloc, archive, clock)? {
            said.push_str(format!(in alloc; "  not at {clock}\n")?.as_str())?;
            return Ok(());
        }
    }
    said.push_str("  at each\n")?;
    Ok(())
}

// The volume that holds a put.
fn holder(
    alloc: Global,
    archive: &Archive,
    name: &str,
    at: &str,
    said: &mut String,
) -> Result<(), CaseFault> {
    let holder = archive.holder(object(name)?, time(at)?);
    said.push_str(format!(in alloc; "  {holder:?}\n")?.as_str())?;
    Ok(())
}

// The marks that the archive joins.
fn joined(alloc: Global, archive: &Archive, said: &mut String) -> Result<(), CaseFault> {
    let marks = archive.joined()?;
    shows::marks(alloc, marks.as_slice(), said)?;
    Ok(())
}

/// What comes of a line on the archive of a case.
pub fn carry_out(case: &Case, line: &[&str], said: &mut String) -> Result<(), CaseFault> {
    match line {
        ["joined"] => joined(case.alloc, case.archive()?, said),
        ["holder", name, at] => holder(case.alloc, case.archive()?, name, at, said),
        ["asof", at] => asof(case.alloc, case.archive()?, time(at)?, said),
        ["scan", at] => scan(case.alloc, case.archive()?, time(at)?, said),
        ["alike", first, last] => {
            alike(
                case.alloc,
                case.archive()?,
                number(first)?,
                number(last)?,
                said,
            )
        }
        _ => Err(CaseFault::Line),
    }
}
