//! The mark of a snapshot.
ghost use Rattle.std.specs.Prelude.{◌≡◌, ◌≤◌, IfSome};
ghost use Rattle.snapshot_command.specs.Snapshots as spec;

use archive_store::{Known, clock_above};
use pseudo_time::{PseudoTime, Stamp};

/// The clock that is asked for, or else the one above all archives. None where no clock is above.
pub fn clock_for(clock: Option<u64>, known: &[Known]) -> Option<u64>
    requires { IfSome clock (λ c. (1 ≤ c) × (c ≤ 1099511627775)) }
    ensures clock { result ≡ spec.clock_for clock known.now }
    ensures within { IfSome result (λ c. (1 ≤ c) × (c ≤ 1099511627775)) }
{
    match clock {
        Some(clock) => Some(clock),
        None => clock_above(known),
    }
}

/// The mark at a clock.
pub fn mark_of(clock: u64) -> PseudoTime
    requires low { 1 ≤ clock }
    requires high { clock ≤ 1099511627775 }
    ensures { result ≡ spec.mark_at clock }
{
    let Some(stamp) = Stamp::new(clock, 1, 1) else {
        unreachable!()
    };
    let Some(mark) = PseudoTime::new(stamp, 1) else {
        unreachable!()
    };
    mark
}
