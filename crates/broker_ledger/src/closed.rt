//! Whether an attempt is over for its broker.
ghost use Rattle.std.specs.Prelude.{◌≡◌};
ghost use Rattle.broker_ledger.specs.Heards as spec;
ghost use Rattle.broker_ledger.specs.Tests as tests;

use crate::heards::Heard;
use crate::notes::{Last, Notes};
use effect_form::Outcome;
use pseudo_time::Stamp;

/// Whether this stamp was heard.
pub fn is_stamp(heard: &Option<Stamp>, stamp: Stamp) -> bool
    ensures { result ≡ tests.is_stamp heard.now stamp }
{
    match heard {
        Some(known) => known.is_same(stamp),
        None => false,
    }
}

// Whether the home has decided with this end.
fn is_settled(end: &Option<Outcome>) -> bool
    ensures { result ≡ spec.is_settled end.now }
{
    matches!(
        end,
        Some(Outcome::Committed) | Some(Outcome::Expired { .. })
    )
}

impl Last {
    /// Whether nothing more is to be heard of the try.
    pub fn is_closed(&self, heard: &Heard) -> bool
        ensures { result ≡ spec.closed_at heard.now self.now }
    {
        self.end.is_some() && (is_settled(&self.end) || is_stamp(&heard.closed, self.stamp))
    }
}

impl Notes {
    /// Whether nothing more is to be heard of the last try.
    pub fn is_closed(&self, heard: &Heard) -> bool
        ensures { result ≡ spec.closed_in heard.now self.now.last }
    {
        match self.last {
            Some(last) => last.is_closed(heard),
            None => false,
        }
    }
}
