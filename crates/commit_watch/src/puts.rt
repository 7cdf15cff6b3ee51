//! A put, as a watch sees it.
use pseudo_time::PseudoTime;
use value_form::ObjectId;

/// A put among the marks, and what a watch has to know of it.
#[derive(Clone, Copy)]
pub struct Put {
    pub object: ObjectId,
    pub start: PseudoTime,
    /// Whether its stamp was committed, where it was decided.
    pub settled: Option<bool>,
    /// It is to be folded, where it is stable.
    pub is_wanted: bool,
    /// It stands where others may have been given up before they were folded.
    pub is_lost: bool,
}
