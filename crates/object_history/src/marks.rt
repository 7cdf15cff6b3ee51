//! The marks of which histories are made.
use pseudo_time::{PseudoTime, Stamp};
use value_form::{ObjectId, Value};

/// What histories are made of. Marks are only added, at the end.
#[derive(Drop)]
pub enum Mark {
    /// A version of the object, from this start on.
    Put(ObjectId, PseudoTime, Value),
    /// What a read of the object at this pseudotime saw was read up to it.
    Stretch(ObjectId, PseudoTime),
    /// The attempt is committed, or else aborted. The first Settle of a stamp counts.
    Settle(Stamp, bool),
    /// Versions below it were given up, and no read below it is answered any more.
    Floor(PseudoTime),
}
