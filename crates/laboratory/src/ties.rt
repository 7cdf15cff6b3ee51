//! Fates and a clock that stay what they were when a run hands them back.
ghost use Rattle.std.specs.Prelude.{◌≡◌, ℕ, Some, replicate};
ghost use Rattle.laboratory.specs.Fates.{asked_of, divisor_of};

use crate::LabFates;
use std::alloc::AllocError;
use std::marker::{Brand, PhantomData};
use stream_port::{Clock, Fate, Fates, FixedClock};

// The divisor by which the messages of one run are lost.
pub trait Divisor {
    ghost divisor: { ℕ };
}

impl Divisor for Brand {
    ghost divisor = { 0 };
}

// Fates by that divisor.
#[derive(Drop)]
pub struct TiedFates<D: Divisor> {
    pub fates: LabFates,
    pub of: PhantomData<D>,
    ghost tied: { divisor_of fates ≡ D.divisor },
}

impl<D: Divisor> Fates for TiedFates<D> {
    ghost asked = { λ f. asked_of f.fates };

    fn fate(&mut self, number: u32, tag: u8) -> Result<Fate, AllocError> {
        self.fates.fate(number, tag)
    }
}

// A clock that stands at 0.
#[derive(Drop)]
pub struct StillClock {
    pub clock: FixedClock,
    ghost still: { clock.moment ≡ 0 },
}

impl Clock for StillClock {
    ghost answers = { λ c. Some (replicate c.clock.calls c.clock.moment) };

    fn moment(&mut self) -> u64 {
        self.clock.moment()
    }
}
