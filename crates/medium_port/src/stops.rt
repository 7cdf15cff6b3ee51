//! Where a medium in memory stops, and what it tears.
ghost use Rattle.std.specs.Prelude.{◌≡◌, is_some};
ghost use Rattle.stream_port.specs.Causes.{next_count};
ghost use Rattle.medium_port.specs.Stops.{is_at, first_met, without_met};

/// Where a medium in memory stops.
#[derive(Clone, Copy, Debug, PartialEq, Eq)]
pub enum StopAt {
    /// At the call with this number. Reads, writes, syncs and reopenings are counted together, from 1.
    Call(u64),
    /// At the first write to this page at this place.
    Write { page: u32, at: u16 },
}

/// A call that is to fail, and what it leaves of the ranges that were written and not synced: in
/// each the first `keep` bytes are as they were written, and the others are `fill`.
#[derive(Clone, Copy, Debug, PartialEq, Eq)]
pub struct Stop {
    pub at: StopAt,
    pub keep: u16,
    pub fill: u8,
}

// Whether a call meets this stop.
pub fn is_met(at: StopAt, call: u64, write: Option<(u32, u16)>) -> bool
    ensures { result ≡ is_at call write at }
{
    match (at, write) {
        (StopAt::Call(number), _) => number == call,
        (StopAt::Write { page, at }, Some((to, place))) => page == to && at == place,
        (StopAt::Write { .. }, None) => false,
    }
}

// Takes out the first stop that a call meets.
pub fn take_met(stops: &mut Vec<Stop>, call: u64, write: Option<(u32, u16)>) -> Option<Stop>
    ensures met { result ≡ first_met call write stops.old.items }
    ensures rest { stops.new.items ≡ without_met call write stops.old.items }
{
    for index in 0..stops.len() {
        if is_met(stops[index].at, call, write) {
            return Some(stops.remove(index));
        }
    }
    None
}
