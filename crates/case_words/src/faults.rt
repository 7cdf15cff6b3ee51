//! Why a line of a case wasn't carried out.
use object_history::HistoryFault;
use std::alloc::{AllocError, AllocFailed, Global};

/// Why a line wasn't carried out.
#[derive(Clone, Copy, Debug)]
pub enum CaseFault {
    NoMemory,
    /// It is no line.
    Line,
    /// A word has no bytes.
    Bytes,
    /// The bytes are no effect.
    Effect,
    /// The bytes are no message.
    Message,
    /// The text is no script.
    Script,
    /// What the line is about wasn't begun, or has failed.
    Subject,
    /// It is outside the medium, or no bytes of a page.
    Place,
    /// Histories failed.
    Histories,
    /// There is no log, or the log of this volume isn't the next.
    Log,
    /// The watch has the object already.
    Object,
    /// There is no archive.
    Archive,
    /// A medium has 1 to 1,048,576 pages.
    Pages,
    /// A stream moves at least one byte a call.
    Pace,
    /// A medium failed while it was set up or shown.
    Medium,
    /// What a call wrote is no UTF-8.
    Text,
    /// The laboratory doesn't take these words.
    Words,
}

impl CaseFault {
    /// What is printed of it. Want of memory is none of the line's.
    pub fn text(self, alloc: Global) -> Result<String, AllocError> {
        match self {
            CaseFault::NoMemory => Err(AllocError),
            fault => format!(in alloc; "  fault {fault:?}\n"),
        }
    }
}

impl From<AllocError> for CaseFault {
    fn from(_error: AllocError) -> CaseFault {
        CaseFault::NoMemory
    }
}

impl<T: Drop> From<AllocFailed<T>> for CaseFault {
    fn from(_failed: AllocFailed<T>) -> CaseFault {
        CaseFault::NoMemory
    }
}

impl From<HistoryFault> for CaseFault {
    fn from(fault: HistoryFault) -> CaseFault {
        match fault {
            HistoryFault::NoMemory => CaseFault::NoMemory,
            HistoryFault::Medium | HistoryFault::Damaged { .. } => CaseFault::Histories,
        }
    }
}
