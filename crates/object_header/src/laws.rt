//! What the marks of new effects add to histories.
ghost use Rattle.std.specs.Prelude.{◌≡◌, [], ◌++◌, ℕ, List, Option, reverse};
ghost use Rattle.effect_form.specs.declared.effects.Effect.{Effect};
ghost use Rattle.repository_log.specs.Logs.{HasMarks, marks};
ghost use Rattle.object_header.specs.Ledgers.{LedgerParts, MediumParts, beneath, content};

/// A law: where histories grew by the marks of these effects since their table was made or flushed,
/// and what lies below them stayed, the marks that aren't stored yet are just those. So what each
/// call of histories says is enough for `flush`. The same holds where the histories have the marks
/// of the store's log with these effects.
pub fn late_marks()
    ensures grown { (old new : LedgerParts) (before left : ℕ) (first last : Option MediumParts)
        (effects : List Effect) → old.late ≡ [] →
        beneath new left last ≡ beneath old before first → content new ≡ marks (reverse effects) ++ content old →
        marks (reverse effects) ≡ new.late }
    ensures logged { (l : LedgerParts) (effects : List Effect) → HasMarks (content l) (l.log ++ effects) →
        marks (reverse effects) ≡ l.late }
{}
