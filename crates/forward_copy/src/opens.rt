//! The first undecided version below the mark.
ghost use Rattle.std.specs.Prelude.{◌≡◌, ◌∷◌, List, reverse};
ghost use Rattle.std.specs.FinMap as finite;
ghost use Rattle.effect_form.specs.declared.effects.Effect.{Effect};
ghost use Rattle.forward_copy.specs.Opens as spec;

use crate::versions::{Version, put_below};
use effect_form::Effect;
use object_history::Settles;
use pseudo_time::PseudoTime;

// The lesser of two, by object, then start.
fn lesser(version: Version, other: &Option<Version>) -> Version
    ensures { result ≡ spec.lesser version other.now }
{
    match other {
        Some(other) if *other < version => *other,
        _ => version,
    }
}

// The first, with one effect more.
fn with_effect(
    first: Option<Version>,
    settles: &Settles,
    mark: PseudoTime,
    effect: &Effect,
) -> Option<Version>
    ensures { result ≡ spec.with_version (λ s. finite.get settles.now s) (spec.put_below mark effect.now) first }
{
    let Some(version) = put_below(mark, effect) else {
        return first;
    };
    match settles.get(version.start.stamp()) {
        Some(_) => first,
        None => Some(lesser(version, &first)),
    }
}

/// The first undecided version below the mark, by object, then start. The log stands oldest first.
pub fn first_open(settles: &Settles, log: &[Effect], mark: PseudoTime) -> Option<Version>
    ensures { result ≡ spec.first_open (λ s. finite.get settles.now s) mark (reverse log.now) }
{
    let mut first = None;
    for effect in log {
        first = with_effect(first, settles, mark, effect);
    }
    first
}
