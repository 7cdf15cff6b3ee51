//! Decimal numbers in a line.
ghost use Rattle.std.specs.Prelude.{◌≡◌, ◌≤◌, ◌<◌, ◌^◌, IfSome};
ghost use Rattle.std.specs.Option.{option_map, option_copied};
ghost use Rattle.plan_form.specs.Plans.{InRange};
ghost use Rattle.plan_form.specs.Reading as spec;

use token_form::number_of;

// The digits at the front, as many as there are, and what follows.
fn split_digits(bytes: &[u8]) -> (&[u8], &[u8])
    ensures front { result.0.now ≡ spec.digits_of bytes.now }
    ensures rest { result.1.now ≡ spec.behind_digits bytes.now }
{
    for (at, byte) in bytes.iter().enumerate() {
        if !byte.is_ascii_digit() {
            return bytes.split_at(at);
        }
    }
    bytes.split_at(bytes.len())
}

// Digits with no zero in front, `0` itself aside.
fn is_numeral(digits: &[u8]) -> bool
    ensures { result ≡ spec.is_numeral digits.now }
{
    match digits {
        [] => false,
        [_] => true,
        [first, ..] => *first != b'0',
    }
}

// The number at the front where it is from 1 to the greatest, and what follows it.
fn number_first(bytes: &[u8], greatest: u64) -> Option<(u64, &[u8])>
    requires { greatest < 2 ^ 63 }
    ensures { option_map (λ p. (p.0, p.1.now)) result ≡ spec.number_first greatest bytes.now }
{
    let (digits, rest) = split_digits(bytes);
    if !is_numeral(digits) {
        return None;
    }
    let Some(number) = number_of(digits) else {
        return None;
    };
    if number < 1 || number > greatest {
        return None;
    }
    Some((number, rest))
}

/// The number from 1 to the greatest that follows a word, with nothing behind it.
pub fn number_alone(bytes: &[u8], word: &[u8], greatest: u64) -> Option<u64>
    requires { greatest < 2 ^ 63 }
    ensures value { result ≡ spec.number_alone word.now greatest bytes.now }
    ensures range { IfSome result (λ n. InRange greatest n) }
{
    let Some((number, rest)) = number_behind(bytes, word, greatest) else {
        return None;
    };
    if !rest.is_empty() {
        return None;
    }
    Some(number)
}

/// The number from 1 to the greatest that follows a word, and what follows it.
pub fn number_behind<'a>(bytes: &'a [u8], word: &[u8], greatest: u64) -> Option<(u64, &'a [u8])>
    requires { greatest < 2 ^ 63 }
    ensures value { option_map (λ p. (p.0, p.1.now)) result ≡ spec.number_behind word.now greatest bytes.now }
    ensures range { IfSome result (λ p. InRange greatest p.0) }
{
    let Some(digits) = bytes.strip_prefix(word) else {
        return None;
    };
    number_first(digits, greatest)
}
