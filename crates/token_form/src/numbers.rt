//! The number that digits write.
ghost use Rattle.std.specs.Prelude.{◌≡◌, ◌<◌, ◌^◌, SomeIff};
ghost use Rattle.std.specs.Char.{is_ascii_digit};
ghost use Rattle.token_form.specs.Tokens.{AllPass, number_from};

/// The number that the digits write; None exactly where it is 2^63 or more.
pub fn number_of(digits: &[u8]) -> Option<u64>
    requires { AllPass is_ascii_digit digits.now }
    ensures { SomeIff result (number_from 0 digits.now < 2 ^ 63) (number_from 0 digits.now) }
{
    let mut number: u64 = 0;
    for digit in digits {
        let longer = number as u128 * 10 + (*digit - b'0') as u128;
        if longer >= 1 << 63 {
            return None;
        }
        number = longer as u64;
    }
    Some(number)
}
