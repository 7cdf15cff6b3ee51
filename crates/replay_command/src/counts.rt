//! How many attempts and versions the logs of a folder have.
ghost use Rattle.std.specs.Prelude.{◌≡◌, ◌<◌, ◌≤◌, ◌+◌, ◌^◌};
ghost use Rattle.log_replay.specs.Folders.{items_of};
ghost use Rattle.replay_command.specs.Counts as spec;

use effect_form::Effect;
use script_replay::Told;

/// How many stamps were told so.
#[derive(Clone, Copy, Debug, PartialEq, Eq)]
pub struct Counts {
    /// Attempts.
    pub attempts: usize,
    /// Of these, those that are committed.
    pub committed: usize,
    /// Of these, those without an End.
    pub unended: usize,
    /// Stamps of committed versions whose broker has no log.
    pub given: usize,
}

// Whether this is told of an attempt.
fn is_tried(told: &Told) -> bool
    ensures { result ≡ spec.is_tried told.now }
{
    match told {
        Told::Tried(_) => true,
        Told::Given(_, _) => false,
    }
}

// Whether this is told of a committed attempt.
fn is_committed(told: &Told) -> bool
    ensures { result ≡ spec.is_committed told.now }
{
    match told {
        Told::Tried(attempt) => attempt.committed,
        Told::Given(_, _) => false,
    }
}

// Whether this is told of an attempt without an End.
fn is_open(told: &Told) -> bool
    ensures { result ≡ spec.is_open told.now }
{
    match told {
        Told::Tried(attempt) => attempt.ended.is_none(),
        Told::Given(_, _) => false,
    }
}

// One more, where it is so.
fn with(count: usize, is: bool) -> usize
    requires { count < 2 ^ 63 }
    ensures count { result ≡ spec.with count is }
    ensures one { result ≤ count + 1 }
{
    if is { count + 1 } else { count }
}

/// How many stamps were told so.
pub fn counts_of(told: &[Told]) -> Counts
    ensures { result ≡ spec.counts_of told.now }
{
    let mut counts = Counts {
        attempts: 0,
        committed: 0,
        unended: 0,
        given: 0,
    };
    for stamp in told {
        counts = Counts {
            attempts: with(counts.attempts, is_tried(stamp)),
            committed: with(counts.committed, is_committed(stamp)),
            unended: with(counts.unended, is_open(stamp)),
            given: with(counts.given, !is_tried(stamp)),
        };
    }
    counts
}

// Whether the effect puts a version.
fn is_put(effect: &Effect) -> bool
    ensures { result ≡ spec.is_put effect.now }
{
    match effect {
        Effect::Put { .. } => true,
        _ => false,
    }
}

// How many versions a log puts.
fn puts_in(log: &[Effect]) -> u64
    ensures { result ≡ spec.puts_in log.now }
{
    let mut count = 0u64;
    for effect in log {
        if is_put(effect) {
            count = count.saturating_add(1);
        }
    }
    count
}

/// How many versions these logs put. Above 2^64 - 1 it counts no further.
pub fn versions_in(logs: &[Vec<Effect>]) -> u64
    ensures { result ≡ spec.versions_in (items_of logs.now) }
{
    let mut count = 0u64;
    for log in logs {
        count = count.saturating_add(puts_in(log.as_slice()));
    }
    count
}
