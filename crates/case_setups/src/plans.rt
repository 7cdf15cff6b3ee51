//! The text of a plan.

use case_words::{CaseFault, bytes};
use std::alloc::Global;

// A count and what stands behind it.
fn counted(words: &str) -> Option<(u32, &str)> {
    let (count, piece) = words.split_once(' ')?;
    Some((count.parse().ok()?, piece))
}

// Adds lines between which bars stand, so many times.
fn add_lines(plan: &mut Vec<u8>, words: &str) -> Result<(), CaseFault> {
    let Some((count, piece)) = counted(words) else {
        return Err(CaseFault::Line);
    };
    for _ in 0..count {
        for line in piece.split('|') {
            plan.extend_from_slice(line.as_bytes())?;
            plan.push(b'\n')?;
        }
    }
    Ok(())
}

// Adds a piece of a line, so many times.
fn add_text(plan: &mut Vec<u8>, words: &str) -> Result<(), CaseFault> {
    let Some((count, piece)) = counted(words) else {
        return Err(CaseFault::Line);
    };
    for _ in 0..count {
        plan.extend_from_slice(piece.as_bytes())?;
    }
    Ok(())
}

/// Adds to a plan what a line of it says: `lines N A|B` are these lines N times, `text N A` is this piece of a
/// line N times, `bytes HEX` are these bytes, and any other line is itself.
pub fn add(alloc: Global, plan: &mut Vec<u8>, line: &str) -> Result<(), CaseFault> {
    match line.split_once(' ') {
        Some(("lines", words)) => add_lines(plan, words),
        Some(("text", words)) => add_text(plan, words),
        Some(("bytes", word)) => {
            plan.extend_from_slice(bytes(alloc, &[word])?.as_slice())?;
            Ok(())
        }
        _ => {
            plan.extend_from_slice(line.as_bytes())?;
            plan.push(b'\n')?;
            Ok(())
        }
    }
}
