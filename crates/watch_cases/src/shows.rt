//! What came of a line, as text.

use commit_watch::Moved;
use object_history::Mark;
use pseudo_time::PseudoTime;
use std::alloc::{AllocError, Global};
use std::fmt::Debug;
use value_form::ObjectId;

// A pseudotime.
fn time(alloc: Global, at: PseudoTime) -> Result<String, AllocError> {
    let name = at.stamp();
    let (clock, broker, home) = (name.clock(), name.broker(), name.home());
    format!(in alloc; "{clock}.{broker}.{home}/{}", at.step())
}

// An object and a pseudotime.
fn place(alloc: Global, name: ObjectId, at: PseudoTime) -> Result<String, AllocError> {
    let at = time(alloc, at)?;
    format!(in alloc; "{}.{} {at}", name.repository, name.number)
}

/// A line with a word, an object and a pseudotime.
pub fn refused(
    alloc: Global,
    word: &str,
    name: ObjectId,
    at: PseudoTime,
    said: &mut String,
) -> Result<(), AllocError> {
    let place = place(alloc, name, at)?;
    said.push_str(format!(in alloc; "  {word} {place}\n")?.as_str())
}

/// What became of an object.
pub fn total<T: Debug>(
    alloc: Global,
    name: ObjectId,
    cursor: PseudoTime,
    total: &T,
    said: &mut String,
) -> Result<(), AllocError> {
    let place = place(alloc, name, cursor)?;
    said.push_str(format!(in alloc; "  {place} {total:?}\n")?.as_str())
}

/// What became of objects, one a line.
pub fn list<T: Debug + Drop>(
    alloc: Global,
    list: &[Moved<T>],
    said: &mut String,
) -> Result<(), AllocError> {
    for moved in list {
        total(alloc, moved.object, moved.cursor, &moved.total, said)?;
    }
    Ok(())
}

// A mark, as a line that adds it.
fn mark(alloc: Global, mark: &Mark) -> Result<String, AllocError> {
    match mark {
        Mark::Put(name, start, value) => {
            format!(in alloc; "  put {} {value:?}\n", place(alloc, *name, *start)?)
        }
        Mark::Stretch(name, at) => {
            format!(in alloc; "  stretch {}\n", place(alloc, *name, *at)?)
        }
        Mark::Settle(name, committed) => {
            let (clock, broker, home) = (name.clock(), name.broker(), name.home());
            let word = if *committed { "yes" } else { "no" };
            format!(in alloc; "  settle {clock}.{broker}.{home} {word}\n")
        }
        Mark::Floor(at) => format!(in alloc; "  floor {}\n", time(alloc, *at)?),
    }
}

/// Marks, one a line.
pub fn marks(alloc: Global, marks: &[Mark], said: &mut String) -> Result<(), AllocError> {
    for next in marks {
        said.push_str(mark(alloc, next)?.as_str())?;
    }
    Ok(())
}
