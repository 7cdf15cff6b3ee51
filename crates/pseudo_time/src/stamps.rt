//! Stamps, the names of attempts.
ghost use Rattle.std.specs.Prelude.{◌≡◌, ◌+◌, ◌<◌, max, SomeIff};

use std::marker::Model;

/// The greatest clock that a stamp may have, 2^40 - 1.
pub const LAST_CLOCK: u64 = 1_099_511_627_775;

/// The greatest number of a broker or of a repository.
const LAST_NODE: u8 = 16;

/// The name of an attempt: a clock, the broker that chose it, and the repository that is the home
/// of the attempt's commit record.
///
/// Stamps are ordered by clock, then broker, then home. The home is part of the stamp, so an
/// attempt has one commit record.
#[derive(Clone, Copy, Debug, PartialEq, Eq, PartialOrd, Ord)]
pub struct Stamp {
    clock: u64,
    broker: u8,
    home: u8,
}

impl Model for Stamp {
    ghost use Rattle.pseudo_time.specs.StampParts.{StampParts, IsInRange};

    ghost Value = { StampParts };

    ghost view = { λ s. record { clock = s.clock; broker = s.broker; home = s.home } };

    ghost invariant = { λ s. IsInRange s.clock s.broker s.home };

    ghost inverse = { λ p. record { clock = p.clock; broker = p.broker; home = p.home } };
}

impl Stamp {
    ghost use Rattle.pseudo_time.specs.StampParts.{IsInRange};
    ghost use Rattle.pseudo_time.specs.Order.{same_stamp};

    /// A stamp of a clock from 1 to [`LAST_CLOCK`], a broker and a home from 1 to 16.
    pub fn new(clock: u64, broker: u8, home: u8) -> Option<Stamp>
        ensures { SomeIff result (IsInRange clock broker home)
            (record { clock = clock; broker = broker; home = home }) }
    {
        if clock < 1 || clock > LAST_CLOCK {
            return None;
        }
        if broker < 1 || broker > LAST_NODE || home < 1 || home > LAST_NODE {
            return None;
        }
        Some(Stamp {
            clock,
            broker,
            home,
        })
    }

    /// The clock, from which an attempt's place in pseudotime follows first.
    pub fn clock(&self) -> u64
        ensures value { result ≡ self.now.clock }
        ensures in_range { IsInRange self.now.clock self.now.broker self.now.home }
    {
        self.clock
    }

    /// The number of the broker that makes the attempt.
    pub fn broker(&self) -> u8
        ensures { result ≡ self.now.broker }
    {
        self.broker
    }

    /// The number of the repository that keeps the commit record.
    pub fn home(&self) -> u8
        ensures { result ≡ self.now.home }
    {
        self.home
    }

    /// Whether this is the same attempt: the meaning of `==`.
    pub fn is_same(&self, other: Stamp) -> bool
        ensures { result ≡ same_stamp self.now other }
    {
        *self == other
    }
}

/// The clock of a broker's next attempt: one more than the greater of its last clock and of the
/// clock that it was shown. None where that would pass [`LAST_CLOCK`].
pub fn next_clock(last: u64, shown: u64) -> Option<u64>
    ensures { SomeIff result (max last shown < LAST_CLOCK) (max last shown + 1) }
{
    let greater = last.max(shown);
    if greater < LAST_CLOCK {
        Some(greater + 1)
    } else {
        None
    }
}
