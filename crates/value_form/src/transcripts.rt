//! The lines of an attempt's transcript.
ghost use Rattle.std.specs.Prelude.{◌≡◌, IfOk};

use crate::objects::ObjectId;
use crate::values::Value;
use std::alloc::{AllocError, Global};

/// A line of the transcript of an attempt.
#[derive(Debug, Drop, PartialEq, Eq)]
pub enum Line {
    /// The object was read, with this answer.
    Read(ObjectId, Value),
    /// The value was written and the write acknowledged.
    Wrote(ObjectId, Value),
    Print(Value),
}

impl Line {
    /// An equal line.
    pub fn copy(&self, alloc: Global) -> Result<Line, AllocError>
        ensures { IfOk result (λ l. l ≡ self.now) }
    {
        match self {
            Line::Read(object, value) => {
                let value = value.copy(alloc)?;
                Ok(Line::Read(*object, value))
            }
            Line::Wrote(object, value) => {
                let value = value.copy(alloc)?;
                Ok(Line::Wrote(*object, value))
            }
            Line::Print(value) => {
                let value = value.copy(alloc)?;
                Ok(Line::Print(value))
            }
        }
    }
}
