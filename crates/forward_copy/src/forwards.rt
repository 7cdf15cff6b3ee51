//! Retires a log at a mark.
ghost use Rattle.std.specs.Prelude.{◌≡◌, false, IfOk, IfErr, IfNone, IfSome, reverse};
ghost use Rattle.object_history.specs.History as history;
ghost use Rattle.repository_log.specs.Logs.{marks};
ghost use Rattle.forward_copy.specs.Wholes.{has_whole};
ghost use Rattle.pseudo_time.specs.TimeParts.{TimeParts};
ghost use Rattle.value_form.specs.declared.objects.ObjectId.{ObjectId};
ghost use Rattle.effect_form.specs.Effects.{AreEffects};
ghost use Rattle.object_retirement.specs.Forward as retirement;
ghost use Rattle.forward_copy.specs.Refusals.{IsFirstUndecided, IsNewMark, IsOldMark};
ghost use Rattle.forward_copy.specs.Sifted.{between, left_behind};

use crate::copies::Forward;
use crate::faults::ForwardFault;
use crate::firms::firms_of;
use crate::opens::first_open;
use crate::settles::settles_of;
use crate::sieves::sift;
use effect_form::Effect;
use pseudo_time::PseudoTime;
use repository_log::floor_with;
use std::alloc::Global;

// The floor of the log.
#[tactic(auto, unfolding(object_history::specs::History::floor_of))]
fn floor_of(log: &[Effect]) -> Option<PseudoTime>
    ensures { result ≡ history.floor_of (marks (reverse log.now)) }
{
    let mut floor = None;
    for effect in log {
        floor = floor_with(floor, effect);
    }
    floor
}

// The floor, where it isn't below the mark.
fn reached_floor(log: &[Effect], mark: PseudoTime) -> Option<PseudoTime>
    ensures old { IfSome result (IsOldMark (reverse log.now) mark) }
    ensures new { IfNone result (IsNewMark (reverse log.now) mark) }
{
    let Some(floor) = floor_of(log) else {
        return None;
    };
    if floor.is_before(mark) {
        None
    } else {
        Some(floor)
    }
}

/// Retires a log, which stands oldest first, at the mark: the first pseudotime of a stamp.
///
/// `OldMark` comes exactly where the floor isn't below the mark, and `Undecided` else, exactly where a
/// version below the mark is undecided. It shows the one of the least object, and of its starts the
/// least.
pub fn forward(alloc: Global, log: &[Effect], mark: PseudoTime) -> Result<Forward, ForwardFault>
    requires { mark.step ≡ 1 }
    ensures may { IfOk result (λ f. retirement.MayRetire (reverse log.now) mark) }
    ensures kept { IfOk result (λ f. between mark f.kept.items ≡ retirement.forward log.now mark) }
    ensures dropped { IfOk result (λ f. f.dropped.items ≡ left_behind log.now mark) }
    ensures old { IfErr result (λ e. (floor : TimeParts) → e ≡ ForwardFault.OldMark floor →
        IsOldMark (reverse log.now) mark floor) }
    ensures undecided { IfErr result (λ e. (object : ObjectId) (start : TimeParts) →
        e ≡ ForwardFault.Undecided object start →
        IsFirstUndecided (reverse log.now) mark object start) }
    ensures in_range { AreEffects log.now → IfOk result (λ f. AreEffects f.kept.items) }
    ensures no_whole { IfOk result (λ f. has_whole f.kept.items ≡ false) }
{
    if let Some(floor) = reached_floor(log, mark) {
        return Err(ForwardFault::OldMark { floor });
    }
    let settles = settles_of(alloc, log)?;
    if let Some(version) = first_open(&settles, log, mark) {
        return Err(ForwardFault::Undecided {
            object: version.object,
            start: version.start,
        });
    }
    let firms = firms_of(alloc, &settles, log, mark)?;
    let forward = sift(alloc, &firms, log, mark)?;
    Ok(forward)
}
