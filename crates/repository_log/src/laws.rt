//! The marks of two logs, one after the other, are those of the one log.
ghost use Rattle.std.specs.Prelude.{◌≡◌, ◌++◌, List, reverse, is_some};
ghost use Rattle.pseudo_time.specs.StampParts.{StampParts};
ghost use Rattle.effect_form.specs.declared.effects.Effect.{Effect};
ghost use Rattle.object_history.specs.Ranges.{AreMarks};
ghost use Rattle.message_form.specs.Ranges.{AreEffects};
ghost use Rattle.repository_log.specs.Logs.{marks, known, knows};

/// A law: the marks of two logs, one after the other, are those of the one and then those of the
/// other, also from the other end; those of effects in range are in range; and histories with the
/// marks of a log know how an attempt was decided just where the log does.
pub fn marks_of_parts()
    ensures append { (l m : List Effect) → marks (l ++ m) ≡ marks l ++ marks m }
    ensures reversed { (l : List Effect) → marks (reverse l) ≡ reverse (marks l) }
    ensures in_range { (l : List Effect) → AreEffects l → AreMarks (marks l) }
    ensures knows { (l : List Effect) (s : StampParts) → is_some (known l s) ≡ knows l s }
{}
