//! How far logs have come.
ghost use Rattle.std.specs.Prelude.{◌≡◌};
ghost use Rattle.session_form.specs.Heights.{clock_in, clock_shown};
ghost use Rattle.session_form.specs.Heights as spec;

use effect_form::{Effect, Outcome};

/// How far logs have come.
#[derive(Clone, Copy, Debug, PartialEq, Eq)]
pub struct Heights {
    /// The greatest run; 0 if none began.
    pub run: u32,
    /// The greatest clock of a stamp; 0 if there is none.
    pub clock: u64,
}

// The clock of the stamp that an outcome shows.
fn shown(outcome: &Outcome) -> u64
    ensures { result ≡ clock_shown outcome.now }
{
    match outcome {
        Outcome::LaterRead { object: _, end } => end.stamp().clock(),
        Outcome::LaterVersion { object: _, start } => start.stamp().clock(),
        _ => 0,
    }
}

// The clock of the stamp in an effect.
fn clock_of(effect: &Effect) -> u64
    ensures { result ≡ clock_in effect.now }
{
    match effect {
        Effect::Put {
            object: _,
            start,
            value: _,
        } => start.stamp().clock(),
        Effect::Stretch { object: _, at } => at.stamp().clock(),
        Effect::Begin { stamp, deadline: _ } => stamp.clock(),
        Effect::Decide { stamp, decision: _ } => stamp.clock(),
        Effect::Learn {
            stamp,
            committed: _,
        } => stamp.clock(),
        Effect::Try { index: _, stamp } => stamp.clock(),
        Effect::Mark { at } => at.stamp().clock(),
        Effect::End { index: _, outcome } => shown(outcome),
        _ => 0,
    }
}

// The run that an effect begins.
fn run_of(effect: &Effect) -> u32
    ensures { result ≡ spec.run_in effect.now }
{
    match effect {
        Effect::Run { number } => *number,
        _ => 0,
    }
}

// As far as these, and as an effect.
fn with_effect(heights: Heights, effect: &Effect) -> Heights
    ensures { result ≡ spec.with_effect heights effect.now }
{
    Heights {
        run: heights.run.max(run_of(effect)),
        clock: heights.clock.max(clock_of(effect)),
    }
}

/// As far as these, and as a log.
pub fn with_log(heights: Heights, log: &[Effect]) -> Heights
    ensures { result ≡ spec.with_log heights log.now }
{
    let mut reached = heights;
    for effect in log {
        reached = with_effect(reached, effect);
    }
    reached
}
