//! How far the logs of opened volumes have come.
ghost use Rattle.std.specs.Prelude.{◌≡◌};
ghost use Rattle.plan_volumes.specs.Openings.{log_in};
ghost use Rattle.session_form.specs.Heights as spec;
ghost use Rattle.session_command.specs.Above.{reached};

use medium_port::Medium;
use plan_volumes::Opening;
use session_form::{Heights, with_log};

// Heights with the log of a volume. One that couldn't be opened has none.
fn with_opening<M: Medium>(heights: Heights, opening: &Opening<M>) -> Heights
    ensures { result ≡ spec.with_log heights (log_in opening.now) }
{
    match opening {
        Opening::Open(_, effects) => with_log(heights, effects.as_slice()),
        Opening::Shut(_, _) => heights,
        Opening::Wanting(_) => heights,
    }
}

/// How far the logs of these volumes have come.
pub fn heights_of<M: Medium>(openings: &[Opening<M>]) -> Heights
    ensures { result ≡ reached openings.now }
{
    let mut reached = Heights { run: 0, clock: 0 };
    for opening in openings {
        reached = with_opening(reached, opening);
    }
    reached
}
