//! How many bytes an effect takes.
ghost use Rattle.std.specs.Prelude.{◌≡◌, ◌≤◌, length};
ghost use Rattle.value_form.specs.ValueBytes.{IsValue, value_bytes};
ghost use Rattle.field_form.specs.Decisions.{decision_text};
ghost use Rattle.effect_form.specs.Effects.{IsEffect, size_of};
ghost use Rattle.effect_form.specs.Outcomes.{outcome_bytes};

use crate::effects::Effect;
use crate::outcomes::Outcome;
use pseudo_time::Decision;
use value_form::{MOST_SHORT_BYTES, Value};

fn value_size(value: &Value) -> usize
    requires { IsValue value.now }
    ensures is { result ≡ length (value_bytes value.now) }
    ensures most { result ≤ 65541 }
{
    match value {
        Value::Nothing => 1,
        Value::Number(_) => 9,
        Value::Text(text) => {
            let size = text.as_slice().len();
            if size <= MOST_SHORT_BYTES as usize {
                3 + size
            } else {
                5 + size
            }
        }
    }
}

fn decision_size(decision: Decision) -> usize
    ensures is { result ≡ length (decision_text decision) }
    ensures most { result ≤ 17 }
{
    match decision {
        Decision::Committed | Decision::Withdrawn => 1,
        Decision::Expired { .. } => 17,
    }
}

fn outcome_size(outcome: Outcome) -> usize
    ensures is { result ≡ length (outcome_bytes outcome) }
    ensures most { result ≤ 20 }
{
    match outcome {
        Outcome::Committed => 1,
        Outcome::Withdrawn { .. } => 3,
        Outcome::Failed { .. } => 4,
        Outcome::LaterRead { .. } | Outcome::LaterVersion { .. } => 20,
        Outcome::Expired { .. } => 17,
        Outcome::Spent { .. } => 9,
    }
}

/// How many bytes an effect takes, whatever its back place is. The longest is a Put of a text of
/// 65,536 bytes.
pub fn effect_size(effect: &Effect) -> usize
    requires { IsEffect effect.now }
    ensures is { result ≡ size_of effect.now }
    ensures some { 1 ≤ result }
    ensures most { result ≤ 65567 }
{
    match effect {
        Effect::Put { value, .. } => 26 + value_size(value),
        Effect::Stretch { .. } => 20,
        Effect::Begin { .. } => 19,
        Effect::Decide { decision, .. } => 11 + decision_size(*decision),
        Effect::Learn { .. } => 12,
        Effect::Run { .. } | Effect::Acked { .. } => 5,
        Effect::Act { script, .. } => 21 + script.as_slice().len(),
        Effect::Try { .. } => 15,
        Effect::Got { value, .. } => 5 + value_size(value),
        Effect::End { outcome, .. } => 5 + outcome_size(*outcome),
        Effect::Mark { .. } => 15,
        Effect::Whole => 1,
    }
}
