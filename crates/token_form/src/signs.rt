//! The signs of the language.
ghost use Rattle.std.specs.Prelude.{◌≡◌, MatchOption, None, Some};
ghost use Rattle.token_form.specs.Tokens.{sign_spelling};
ghost use Rattle.token_form.specs.Reading as reading;

use crate::tokens::Sign;

impl Sign {
    /// Its one or two bytes.
    pub fn spelling(self) -> &'static [u8]
        ensures { result.now ≡ sign_spelling self }
    {
        match self {
            Sign::Equal => b"=".as_slice(),
            Sign::NotEqual => b"<>".as_slice(),
            Sign::Less => b"<".as_slice(),
            Sign::LessEqual => b"<=".as_slice(),
            Sign::Greater => b">".as_slice(),
            Sign::GreaterEqual => b">=".as_slice(),
            Sign::Plus => b"+".as_slice(),
            Sign::Minus => b"-".as_slice(),
            Sign::Star => b"*".as_slice(),
            Sign::Slash => b"/".as_slice(),
            Sign::Ampersand => b"&".as_slice(),
            Sign::Open => b"(".as_slice(),
            Sign::Close => b")".as_slice(),
            Sign::OpenBracket => b"[".as_slice(),
            Sign::CloseBracket => b"]".as_slice(),
            Sign::Dot => b".".as_slice(),
            Sign::Comma => b",".as_slice(),
        }
    }
}

// The sign of one byte.
fn sign_of(byte: u8) -> Option<Sign>
    ensures { result ≡ reading.sign_of byte }
{
    match byte {
        b'=' => Some(Sign::Equal),
        b'<' => Some(Sign::Less),
        b'>' => Some(Sign::Greater),
        b'+' => Some(Sign::Plus),
        b'-' => Some(Sign::Minus),
        b'*' => Some(Sign::Star),
        b'/' => Some(Sign::Slash),
        b'&' => Some(Sign::Ampersand),
        b'(' => Some(Sign::Open),
        b')' => Some(Sign::Close),
        b'[' => Some(Sign::OpenBracket),
        b']' => Some(Sign::CloseBracket),
        b'.' => Some(Sign::Dot),
        b',' => Some(Sign::Comma),
        _ => None,
    }
}

// The sign of two bytes that begins with this one.
fn longer(sign: Sign, next: u8) -> Option<Sign>
    ensures { result ≡ reading.longer sign next }
{
    match (sign, next) {
        (Sign::Less, b'=') => Some(Sign::LessEqual),
        (Sign::Less, b'>') => Some(Sign::NotEqual),
        (Sign::Greater, b'=') => Some(Sign::GreaterEqual),
        _ => None,
    }
}

// The longest sign that begins with this one, and what follows it.
fn longest(sign: Sign, after: &[u8]) -> (Sign, &[u8])
    ensures sign { result.0 ≡ (reading.longest sign after.now).0 }
    ensures rest { result.1.now ≡ (reading.longest sign after.now).1 }
{
    let Some((next, rest)) = after.split_first() else {
        return (sign, after);
    };
    match longer(sign, *next) {
        Some(both) => (both, rest),
        None => (sign, after),
    }
}

// The longest sign at the front, and what follows it.
pub fn sign_at(first: u8, after: &[u8]) -> Option<(Sign, &[u8])>
    ensures { MatchOption result (reading.sign_at first after.now ≡ None)
        (λ found. reading.sign_at first after.now ≡ Some (found.0, found.1.now)) }
{
    let Some(sign) = sign_of(first) else {
        return None;
    };
    Some(longest(sign, after))
}
