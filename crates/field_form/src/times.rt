//! The bytes of stamps and pseudotimes.
ghost use Rattle.std.specs.Prelude.{◌≡◌, ◌++◌, OnOk};
ghost use Rattle.std.specs.Option.{option_map};
ghost use Rattle.pseudo_time.specs.StampParts.{stamp_bytes};
ghost use Rattle.pseudo_time.specs.TimeParts.{time_bytes};
ghost use Rattle.field_form.specs.Times.{stamp_at, time_at};

use crate::numbers::{byte_of, u32_of, u64_of};
use pseudo_time::{PseudoTime, Stamp};
use std::alloc::AllocError;

/// The stamp in the first ten bytes. None where they aren't those of a stamp.
#[tactic(auto, unfolding(crate::specs::Times::stamp_at))]
pub fn stamp_of(bytes: &[u8]) -> Option<(Stamp, &[u8])>
    ensures { option_map (λ p. (p.0, p.1.now)) result ≡ stamp_at bytes.now }
{
    let Some((clock, rest)) = u64_of(bytes) else {
        return None;
    };
    let Some((broker, rest)) = byte_of(rest) else {
        return None;
    };
    let Some((home, rest)) = byte_of(rest) else {
        return None;
    };
    let Some(stamp) = Stamp::new(clock, broker, home) else {
        return None;
    };
    Some((stamp, rest))
}

/// The pseudotime in the first fourteen bytes. None where they aren't those of a pseudotime.
#[tactic(auto, unfolding(crate::specs::Times::time_at))]
pub fn time_of(bytes: &[u8]) -> Option<(PseudoTime, &[u8])>
    ensures { option_map (λ p. (p.0, p.1.now)) result ≡ time_at bytes.now }
{
    let Some((stamp, rest)) = stamp_of(bytes) else {
        return None;
    };
    let Some((step, rest)) = u32_of(rest) else {
        return None;
    };
    let Some(time) = PseudoTime::new(stamp, step) else {
        return None;
    };
    Some((time, rest))
}

/// Appends the ten bytes of a stamp.
pub fn push_stamp(out: &mut Vec<u8>, stamp: Stamp) -> Result<(), AllocError>
    ensures { OnOk result (out.new.items ≡ out.old.items ++ stamp_bytes stamp) }
{
    let [a, b, c, d, e, f, g, h] = stamp.clock().to_be_bytes();
    out.extend_from_slice(&[a, b, c, d, e, f, g, h, stamp.broker(), stamp.home()])
}

/// Appends the fourteen bytes of a pseudotime.
pub fn push_time(out: &mut Vec<u8>, time: PseudoTime) -> Result<(), AllocError>
    ensures { OnOk result (out.new.items ≡ out.old.items ++ time_bytes time) }
{
    out.extend_from_slice(&time.to_bytes())
}
