//! Why a line is no row.
use crate::parse_faults::ParseKind;

// Why a line is no row.
#[derive(Clone, Copy, Debug, PartialEq, Eq)]
pub enum RowFault {
    Kind(ParseKind),
    NoMemory,
}
