//! How a script can end.
use crate::fail_kinds::FailKind;

/// How a script ends. A line is that of the statement.
#[derive(Clone, Copy, Debug, PartialEq, Eq)]
pub enum Ending {
    /// It came to its end.
    Finished,
    Withdrawn { line: u16 },
    Failed { line: u16, kind: FailKind },
}
