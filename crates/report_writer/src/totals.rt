//! How many acts ended in each way.
ghost use Rattle.std.specs.Prelude.{◌≡◌, length};
ghost use Rattle.report_writer.specs.Standings as spec;

use crate::records::{ActOutcome, ActReport, TryOutcome, TryReport};

// The outcome of the last attempt.
fn last_outcome(tries: &[TryReport]) -> TryOutcome
    ensures { result ≡ spec.last_outcome tries.now }
{
    match tries.last() {
        Some(last) => last.outcome,
        None => TryOutcome::Open,
    }
}

// What an attempt's outcome makes of its act.
fn standing_after(last: bool, outcome: TryOutcome) -> ActOutcome
    ensures { result ≡ spec.standing_after last outcome }
{
    match outcome {
        TryOutcome::Open => ActOutcome::Open,
        TryOutcome::Committed => ActOutcome::Committed,
        TryOutcome::Withdrawn { line: _ } => ActOutcome::Withdrawn,
        TryOutcome::Failed { line: _, kind: _ } => ActOutcome::Failed,
        TryOutcome::LaterRead { object: _, end: _ } => {
            if last {
                ActOutcome::Refused
            } else {
                ActOutcome::Open
            }
        }
        TryOutcome::LaterVersion {
            object: _,
            start: _,
        } => {
            if last {
                ActOutcome::Refused
            } else {
                ActOutcome::Open
            }
        }
        TryOutcome::Expired {
            deadline: _,
            moment: _,
        } => {
            if last {
                ActOutcome::Expired
            } else {
                ActOutcome::Open
            }
        }
    }
}

impl ActReport {
    /// How the act stands.
    pub fn standing(&self) -> ActOutcome
        ensures { result ≡ spec.standing_of self.now }
    {
        match self.spent {
            Some(_) => ActOutcome::Spent,
            None => {
                let tries = self.tries.as_slice();
                let last = tries.len() >= self.allowed as usize;
                standing_after(last, last_outcome(tries))
            }
        }
    }
}

/// How many acts stand so.
pub fn count_of(which: ActOutcome, acts: &[ActReport]) -> usize
    ensures { result ≡ spec.count_of which acts.now }
{
    let mut count = 0;
    for act in acts {
        if act.standing() == which {
            count += 1;
        }
    }
    count
}
