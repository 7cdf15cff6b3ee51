//! An object whose versions a watch has folded.
use pseudo_time::PseudoTime;
use value_form::ObjectId;

/// An object that a watch has folded, up to the version at its cursor.
#[derive(Debug, Drop, PartialEq, Eq)]
pub struct Moved<T> {
    pub object: ObjectId,
    /// The start of the last version that was folded.
    pub cursor: PseudoTime,
    pub total: T,
}
