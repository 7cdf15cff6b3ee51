//! A version, as a watch hands it to its rule.
use pseudo_time::PseudoTime;
use value_form::{ObjectId, Value};

/// A version of an object.
#[derive(Debug, Drop, PartialEq, Eq)]
pub struct Version {
    pub object: ObjectId,
    pub start: PseudoTime,
    pub value: Value,
}
