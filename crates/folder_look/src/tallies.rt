//! The numbers at the top of the page.
ghost use Rattle.std.specs.Prelude.{◌≡◌};
ghost use Rattle.folder_look.specs.Tallies as spec;

use crate::looks::MediumLook;
use effect_form::{Effect, Outcome};

/// What the logs of a folder count up to.
#[derive(Clone, Copy)]
pub struct Tally {
    /// The greatest number of a run.
    pub runs: u64,
    pub acts: u64,
    pub tries: u64,
    pub committed: u64,
    /// Attempts that ended otherwise, and acts that are spent.
    pub others: u64,
    /// The greatest clock of an attempt.
    pub clock: u64,
}

// With how an attempt or an act ended.
fn ended(outcome: Outcome, tally: Tally) -> Tally
    ensures { result ≡ spec.ended outcome tally }
{
    let mut tally = tally;
    match outcome {
        Outcome::Committed => tally.committed = tally.committed.saturating_add(1),
        Outcome::Withdrawn { .. } => tally.others = tally.others.saturating_add(1),
        Outcome::Failed { .. } => tally.others = tally.others.saturating_add(1),
        Outcome::LaterRead { .. } => tally.others = tally.others.saturating_add(1),
        Outcome::LaterVersion { .. } => tally.others = tally.others.saturating_add(1),
        Outcome::Expired { .. } => tally.others = tally.others.saturating_add(1),
        Outcome::Spent { .. } => tally.others = tally.others.saturating_add(1),
    }
    tally
}

// With one more effect.
fn counted(effect: &Effect, tally: Tally) -> Tally
    ensures { result ≡ spec.counted effect.now tally }
{
    let mut tally = tally;
    match effect {
        Effect::Run { number } => tally.runs = tally.runs.max(*number as u64),
        Effect::Act { .. } => tally.acts = tally.acts.saturating_add(1),
        Effect::Try { stamp, .. } => {
            tally.tries = tally.tries.saturating_add(1);
            tally.clock = tally.clock.max(stamp.clock());
        }
        Effect::End { outcome, .. } => return ended(*outcome, tally),
        _ => {}
    }
    tally
}

// With the effects of a log.
fn counted_all(effects: &[Effect], tally: Tally) -> Tally
    ensures { result ≡ spec.counted_all effects.now tally }
{
    let mut sum = tally;
    for effect in effects {
        sum = counted(effect, sum);
    }
    sum
}

/// What the logs of all media count up to.
pub fn tally_of(media: &[MediumLook]) -> Tally
    ensures { result ≡ spec.tally_of media.now }
{
    let mut sum = Tally {
        runs: 0,
        acts: 0,
        tries: 0,
        committed: 0,
        others: 0,
        clock: 0,
    };
    for medium in media {
        sum = counted_all(medium.log.as_slice(), sum);
    }
    sum
}
