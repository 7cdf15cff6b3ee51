//! Why a run of a script stops.
use value_form::{Bytes, Ending, ObjectId, Value};

/// Why a run stops: at a request, or at an ending.
#[derive(Debug, Drop)]
pub enum Halt {
    /// A read, with the name that gets the answer.
    Read(Bytes, ObjectId),
    Write(ObjectId, Value),
    End(Ending),
}
