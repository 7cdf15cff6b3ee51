//! Whether a volume is complete: its log has a Whole.
ghost use Rattle.std.specs.Prelude.{◌≡◌};
ghost use Rattle.forward_copy.specs.Wholes as spec;

use effect_form::Effect;

fn is_whole(effect: &Effect) -> bool
    ensures { result ≡ spec.is_whole effect.now }
{
    match effect {
        Effect::Whole => true,
        _ => false,
    }
}

/// Whether a Whole stands in the log.
pub fn has_whole(log: &[Effect]) -> bool
    ensures { result ≡ spec.has_whole log.now }
{
    for effect in log {
        if is_whole(effect) {
            return true;
        }
    }
    false
}
