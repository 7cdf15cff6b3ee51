//! The parts of a poll line.
ghost use Rattle.std.specs.Prelude.{◌≡◌};
ghost use Rattle.vote_form.specs.Reading as spec;

use crate::poll_lines::PollLine;
use plan_form::number_behind;
use pseudo_time::Stamp;
use record_votes::Wish;

const MOST_CLOCK: u64 = 1_099_511_627_775;

const MOST_NODE: u64 = 16;

const MOST_TIMEOUT: u64 = 1_000_000;

fn wish_of(bytes: &[u8]) -> Option<Wish>
    ensures { result ≡ spec.wish_at bytes.now }
{
    if bytes == b" commit".as_slice() {
        return Some(Wish::Commit);
    }
    if bytes == b" withdraw".as_slice() {
        return Some(Wish::Withdraw);
    }
    None
}

// The stamp at the front, and what follows it.
fn stamp_of(bytes: &[u8]) -> Option<(Stamp, &[u8])>
    ensures { spec.seen result ≡ spec.stamp_at bytes.now }
{
    let Some((clock, rest)) = number_behind(bytes, b"poll ", MOST_CLOCK) else {
        return None;
    };
    let Some((broker, rest)) = number_behind(rest, b".", MOST_NODE) else {
        return None;
    };
    let Some((home, rest)) = number_behind(rest, b".", MOST_NODE) else {
        return None;
    };
    let Some(stamp) = Stamp::new(clock, broker as u8, home as u8) else {
        return None;
    };
    Some((stamp, rest))
}

/// What a poll line says.
pub fn poll_of(line: &[u8]) -> Option<PollLine>
    ensures { result ≡ spec.poll_at line.now }
{
    let Some((stamp, rest)) = stamp_of(line) else {
        return None;
    };
    let Some((timeout, rest)) = number_behind(rest, b" timeout ", MOST_TIMEOUT) else {
        return None;
    };
    let Some(wish) = wish_of(rest) else {
        return None;
    };
    Some(PollLine {
        stamp,
        timeout: timeout as u32,
        wish,
    })
}
