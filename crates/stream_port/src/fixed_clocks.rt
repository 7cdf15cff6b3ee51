//! A clock that always says the same moment.
ghost use Rattle.std.specs.Prelude.{◌≡◌, ◌∷◌, [], Some, replicate};
ghost use Rattle.stream_port.specs.Causes.{next_count};
ghost use Rattle.stream_port.specs.Clocks.{Adds};

use crate::clocks::Clock;
use std::marker::Model;

/// A clock that stands at one moment. It counts its calls and tells its answers.
#[derive(Drop)]
pub struct FixedClock {
    moment: u64,
    calls: u64,
}

impl Model for FixedClock {
    ghost use Rattle.stream_port.specs.Clocks.{FixedParts};

    ghost Value = { FixedParts };

    ghost view = { λ c. record { moment = c.moment; calls = c.calls } };
}

impl FixedClock {
    ghost use Rattle.stream_port.specs.Clocks.{FixedParts};

    /// A clock that stands at this moment and was asked for it by no call yet.
    pub fn new(moment: u64) -> FixedClock
        ensures { result ≡ record { moment = moment; calls = 0 } }
    {
        FixedClock { moment, calls: 0 }
    }

    /// How many calls there were. It stays at 2^64 - 1.
    pub fn calls(&self) -> u64
        ensures { result ≡ self.now.calls }
    {
        self.calls
    }
}

impl Clock for FixedClock {
    ghost answers = { λ c. Some (replicate c.calls c.moment) };

    fn moment(&mut self) -> u64
        ensures answers { Adds (Some (replicate self.old.calls self.old.moment))
            (Some (replicate self.new.calls self.new.moment)) (result ∷ []) }
        ensures moment { result ≡ self.old.moment }
        ensures counted { self.new ≡ record { moment = self.old.moment; calls = next_count self.old.calls } }
    {
        self.calls = self.calls.saturating_add(1);
        self.moment
    }
}
