//! A version, by its object and its start.
ghost use Rattle.std.specs.Prelude.{◌≡◌};
ghost use Rattle.forward_copy.specs.Opens as spec;

use effect_form::Effect;
use pseudo_time::PseudoTime;
use value_form::ObjectId;

/// A version, by its object and its start.
#[derive(Clone, Copy, Debug, PartialEq, Eq, PartialOrd, Ord)]
pub struct Version {
    pub object: ObjectId,
    pub start: PseudoTime,
}

/// The version below the mark that the effect puts.
pub fn put_below(mark: PseudoTime, effect: &Effect) -> Option<Version>
    ensures { result ≡ spec.put_below mark effect.now }
{
    match effect {
        Effect::Put { object, start, .. } if start.is_before(mark) => Some(Version {
            object: *object,
            start: *start,
        }),
        _ => None,
    }
}
