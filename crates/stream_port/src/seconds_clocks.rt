//! A clock that counts the system's seconds.
ghost use Rattle.std.specs.Prelude.{None};

use crate::clocks::Clock;
use std::time::{self, SystemTime, UNIX_EPOCH};

/// A clock over the system's: its moments are seconds since 1970. It tells no answers. Where the
/// system's clock can't be read, or stands before 1970, the moment is 0.
#[derive(Drop)]
pub struct SecondsClock<R> {
    system: R,
}

impl<R> SecondsClock<R> {
    /// A clock that asks this one of the system.
    pub fn new(system: R) -> SecondsClock<R> {
        SecondsClock { system }
    }
}

impl<R: time::Clock> Clock for SecondsClock<R> {
    ghost answers = { λ _. None };

    fn moment(&mut self) -> u64 {
        let Ok(now) = SystemTime::now(&self.system) else {
            return 0;
        };
        match now.duration_since(UNIX_EPOCH) {
            Ok(passed) => passed.as_secs(),
            Err(_) => 0,
        }
    }
}
