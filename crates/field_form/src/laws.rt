//! What is read of a field is in range, and its bytes are what was read.
ghost use Rattle.std.specs.Prelude.{◌<◌, ◌^◌, ◌∷◌, [], FitsSigned};
ghost use Rattle.std.specs.Int.{w16, w32, w64, to_be_bytes, cast_unsigned};
ghost use Rattle.pseudo_time.specs.StampParts.{IsStamp, stamp_bytes};
ghost use Rattle.pseudo_time.specs.TimeParts.{IsTime, time_bytes};
ghost use Rattle.field_form.specs.Decisions.{IsDecision, decision_at, decision_text};
ghost use Rattle.field_form.specs.Forms.{IsForm};
ghost use Rattle.field_form.specs.Numbers.{byte_at, number_at, signed_at};
ghost use Rattle.field_form.specs.Times.{stamp_at, time_at};

/// A law: what is read of each field is a value in range whose text stands at the front, and a
/// value in range is read again from its text, whatever follows.
pub fn fields_are_forms()
    ensures byte { IsForm (λ b. b ∷ []) (λ b. b < 256) byte_at }
    ensures number16 { IsForm (to_be_bytes w16) (λ n. n < 2 ^ 16) (number_at w16) }
    ensures number32 { IsForm (to_be_bytes w32) (λ n. n < 2 ^ 32) (number_at w32) }
    ensures number64 { IsForm (to_be_bytes w64) (λ n. n < 2 ^ 64) (number_at w64) }
    ensures signed { IsForm (λ z. to_be_bytes w64 (cast_unsigned w64 z)) (FitsSigned w64) signed_at }
    ensures stamp { IsForm stamp_bytes IsStamp stamp_at }
    ensures time { IsForm time_bytes IsTime time_at }
    ensures decision { IsForm decision_text IsDecision decision_at }
{}
