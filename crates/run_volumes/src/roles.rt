//! Which of a node's volumes is current, and which is fresh.
ghost use Rattle.std.specs.Prelude.{◌≡◌};
ghost use Rattle.run_media.specs.Openings.{log_in};
ghost use Rattle.forward_copy.specs.Currents as currents;
ghost use Rattle.forward_copy.specs.Wholes as wholes;
ghost use Rattle.run_volumes.specs.Volumes as spec;

use effect_form::Effect;
use forward_copy::has_whole;
use medium_port::Medium;
use run_media::Opening;

// Whether the volume's log has a Whole.
fn is_whole<M: Medium>(opening: &Opening<M>) -> bool
    ensures { result ≡ wholes.has_whole (log_in opening.now) }
{
    match opening {
        Opening::Open(_, effects) => has_whole(effects.as_slice()),
        Opening::Shut(_, _) => false,
        Opening::Wanting(_) => false,
    }
}

// Whether the volume's log is empty.
fn is_empty<M: Medium>(opening: &Opening<M>) -> bool
    ensures { result ≡ spec.is_empty_log (log_in opening.now) }
{
    match opening {
        Opening::Open(_, effects) => effects.is_empty(),
        Opening::Shut(_, _) => true,
        Opening::Wanting(_) => true,
    }
}

/// The current one of a node's volumes: the greatest whose log has a Whole, or 0 where none has.
pub fn current<M: Medium>(openings: &[Opening<M>]) -> usize
    ensures { result ≡ currents.current (spec.logs_of openings.now) }
{
    let mut found = 0;
    for (volume, opening) in openings.iter().enumerate() {
        if is_whole(opening) {
            found = volume;
        }
    }
    found
}

/// The fresh one of a node's volumes: the first above 0 that is empty. None where none is.
pub fn fresh<M: Medium>(openings: &[Opening<M>]) -> Option<usize>
    ensures { result ≡ spec.fresh (spec.logs_of openings.now) }
{
    for (volume, opening) in openings.iter().enumerate() {
        if volume > 0 && is_empty(opening) {
            return Some(volume);
        }
    }
    None
}

// The volume's log: one that can't be opened has none.
fn log_of<M: Medium>(opening: &Opening<M>) -> &[Effect]
    ensures { result.now ≡ log_in opening.now }
{
    match opening {
        Opening::Open(_, effects) => effects.as_slice(),
        Opening::Shut(_, _) => &[],
        Opening::Wanting(_) => &[],
    }
}

/// The node's log: that of its current volume.
pub fn node_log<M: Medium>(openings: &[Opening<M>]) -> &[Effect]
    ensures { result.now ≡ currents.node_log (spec.logs_of openings.now) }
{
    match openings.get(current(openings)) {
        Some(opening) => log_of(opening),
        None => &[],
    }
}
