//! Lines that are a word and a number.
ghost use Rattle.std.specs.Prelude.{◌≡◌, ◌<◌, ◌^◌, ◌∷◌, ◌++◌, [], length, MatchOption};
ghost use Rattle.std.specs.Fmt.{decimal};
ghost use Rattle.script_form.specs.Lines.{lines};
ghost use Rattle.plan_form.specs.Plans.{InRange};
ghost use Rattle.plan_form.specs.PlanFaults.{IsNumbered, Lacks};

use crate::digits::number_alone;
use script_form::first_line;

/// The next line, and what follows it.
pub fn next_line(bytes: &[u8]) -> Option<(&[u8], &[u8])>
    ensures { MatchOption result (lines bytes.now ≡ []) (λ p. (lines bytes.now ≡ p.0.now ∷ lines p.1.now) ×
        (length p.1.now < length bytes.now)) }
{
    if bytes.is_empty() {
        return None;
    }
    Some(first_line(bytes))
}

// The number of a line that is a word and a number from 1 to the greatest.
fn number_line(line: &[u8], word: &[u8], greatest: u64) -> Option<u64>
    requires { greatest < 2 ^ 63 }
    ensures { MatchOption result (IsNumbered (λ n. word.now ++ decimal n) greatest line.now → ⊥)
        (λ n. InRange greatest n × (line.now ≡ word.now ++ decimal n)) }
{
    number_alone(line, word, greatest)
}

/// The number of the next line, which is a word and a number from 1 to the greatest, and what follows
/// the line.
pub fn next_number<'a>(bytes: &'a [u8], word: &[u8], greatest: u64) -> Option<(u64, &'a [u8])>
    requires { greatest < 2 ^ 63 }
    ensures { MatchOption result (Lacks (IsNumbered (λ n. word.now ++ decimal n) greatest) (lines bytes.now))
        (λ p. InRange greatest p.0 × (lines bytes.now ≡ (word.now ++ decimal p.0) ∷ lines p.1.now) ×
        (length p.1.now < length bytes.now)) }
{
    let Some((line, rest)) = next_line(bytes) else {
        return None;
    };
    let Some(number) = number_line(line, word, greatest) else {
        return None;
    };
    Some((number, rest))
}
