//! The last put of each object, for back places.
ghost use Rattle.std.specs.Prelude.{◌≡◌, ◌++◌, [], ◌∷◌, ◌<◌, ℕ, Option, OnOk, IfOk};
ghost use Rattle.effect_form.specs.Effects.{IsPlace, IsWritten, IsEffect};
ghost use Rattle.page_form.specs.Entries.{Log, put_object, back_in, same_back};
ghost use Rattle.page_form.specs.Heads.{AreBelow, ArePlaces, HeadsFit};
ghost use Rattle.page_form.specs.Laying.{entry_at};

use effect_form::{Effect, Place};
use std::alloc::AllocError;
use std::collections::BTreeMap;
use value_form::ObjectId;

/// The object of which an effect is a Put.
pub fn object_put(effect: &Effect) -> Option<ObjectId>
    ensures { result ≡ put_object effect.now }
{
    match effect {
        Effect::Put { object, .. } => Some(*object),
        _ => None,
    }
}

/// Notes an effect at its place behind the log. Gives the back place that it has there.
pub fn note(
    heads: &mut BTreeMap<ObjectId, Place>,
    effect: &Effect,
    place: Place,
) -> Result<Option<Place>, AllocError>
    requires place { IsPlace place }
    requires places { ArePlaces heads.old }
    ensures back { (log : Log) → HeadsFit heads.old log → IfOk result (λ b. b ≡ back_in log effect.now) }
    ensures written { IsEffect effect.now → IfOk result (λ b. IsWritten (effect.now, b)) }
    ensures heads { (log : Log) → HeadsFit heads.old log →
        OnOk result (HeadsFit heads.new (log ++ entry_at log place effect.now ∷ [])) }
    ensures places { OnOk result (ArePlaces heads.new) }
    ensures below { (limit : ℕ) → place.page < limit → AreBelow limit heads.old →
        OnOk result (AreBelow limit heads.new) }
{
    match object_put(effect) {
        None => Ok(None),
        Some(object) => {
            let back = heads.insert(object, place)?;
            Ok(back)
        }
    }
}

/// Whether two back places are the same.
pub fn is_same(a: Option<Place>, b: Option<Place>) -> bool
    ensures { result ≡ same_back a b }
{
    match (a, b) {
        (None, None) => true,
        (Some(a), Some(b)) => a.page == b.page && a.offset == b.offset,
        _ => false,
    }
}
