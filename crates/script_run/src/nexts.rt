//! What a run asks for, or how it ended.
use value_form::{FailKind, ObjectId, Value};

/// What a run requests, or how the script ended. A line is that of the statement.
#[derive(Debug, Drop, PartialEq, Eq)]
pub enum Next {
    /// What the object holds is asked for.
    Read(ObjectId),
    /// The object is to get the value.
    Write(ObjectId, Value),
    /// The script came to its end.
    Finished,
    Withdrawn { line: u16 },
    Failed { line: u16, kind: FailKind },
}
