//! The end of a run.
ghost use Rattle.std.specs.Prelude.{◌≡◌, ◌+◌, length, vec_len, All};
ghost use Rattle.seat_lock.specs.Words.{base_of};
ghost use Rattle.run_starts.specs.Sights.{IsWirePass};
ghost use Rattle.run_starts.specs.Stories.{LeavesUntold};
ghost use Rattle.run_rounds.specs.Closings.{ClosedAs, IfRan, IfWanting, ToldFor};

use broker_core::ResumeFault;
use medium_port::Medium;
use run_starts::{Closed, Reason, SharedWire, Told, WirePass};
use stream_port::{Clock, Fates};
use value_form::Items;

/// How a run ended.
#[derive(Debug, Drop)]
pub enum End {
    /// This happened.
    Ran(Told),
    /// A broker's log shows a later run or another plan: no run began.
    Refused(ResumeFault),
    NoMemory,
}

/// What a run hands back.
#[derive(Drop)]
pub struct Finished<F, C, M: Medium> {
    pub end: End,
    /// The media, in the places in which they were handed in.
    pub media: Items<Option<M>>,
    pub fates: F,
    pub clock: C,
}

// A run that ended for this reason tells its trace, unless memory ran out.
fn told_by(told: Told, idle: bool, reason: Reason) -> End
    ensures { IfRan result (ToldFor told idle reason) }
{
    match reason {
        Reason::Wanting => End::NoMemory,
        // The conductor's last look says this of a wire that is idle.
        Reason::RunOut => if idle { End::Ran(told) } else { End::NoMemory },
        Reason::Down | Reason::Done | Reason::Enough => End::Ran(told),
    }
}

/// A run's media in their places, all passes of its wire, and why it ended.
pub struct Ended<F: Fates, C: Clock, M: Medium> {
    pub media: Vec<Option<M>>,
    pub passes: Vec<WirePass<F, C, M>>,
    pub reason: Reason,
}

/// Closes the wire with all its passes, and hands all back.
pub fn closed_run<F: Fates, C: Clock, M: Medium>(
    wire: SharedWire<F, C, M>,
    ended: Ended<F, C, M>,
) -> Finished<F, C, M>
    requires passes { All (IsWirePass wire.lock) ended.passes.items }
    requires all { vec_len ended.passes ≡ length (base_of wire.lock).origin.opened + 1 }
    ensures closed { IfRan result.end (λ t.
        ClosedAs M.tells (base_of wire.lock).origin ended.passes.items ended.reason t (F.asked result.fates)
        (C.answers result.clock)) }
    // Where it isn't told, there is one, too.
    ensures untold { IfWanting result.end (LeavesUntold M.tells (base_of wire.lock).origin ended.passes.items) }
    ensures media { result.media ≡ ended.media.items }
{
    let Ended {
        media,
        passes,
        reason,
    } = ended;
    let media = Items::of(media);
    match wire.close(passes) {
        Ok(
            Closed {
                told,
                idle,
                fates,
                clock,
            },
        ) => Finished {
            end: told_by(told, idle, reason),
            media,
            fates,
            clock,
        },
        Err((fates, clock, _)) => Finished {
            end: End::NoMemory,
            media,
            fates,
            clock,
        },
    }
}
