//! The status of a call of votes.
ghost use Rattle.std.specs.Prelude.{◌≡◌};
ghost use Rattle.vote_report.specs.Statuses as spec;

use crate::standings::PollStanding;

// Whether each poll holds a decision.
fn all_held(polls: &[PollStanding]) -> bool
    ensures { result ≡ spec.all_held polls.now }
{
    polls.iter().all(|poll| poll.held.is_some())
}

/// The status: 0 exactly where each poll holds a decision, else 6 where a member is down, else 5.
pub fn status_of(polls: &[PollStanding], some_down: bool) -> u8
    ensures { result ≡ spec.status_with (spec.all_held polls.now) some_down }
{
    if all_held(polls) {
        0
    } else if some_down {
        6
    } else {
        5
    }
}
