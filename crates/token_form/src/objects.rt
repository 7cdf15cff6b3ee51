//! Whether the objects of a line name repositories that there are.
ghost use Rattle.std.specs.Prelude.{◌≡◌};
ghost use Rattle.token_form.specs.Tokens as spec;

use crate::tokens::{Sign, Token};

fn is_dot(token: &Token) -> bool
    ensures { result ≡ spec.is_dot token.now }
{
    matches!(token, Token::Sign(Sign::Dot))
}

// Whether it stands behind a repository.
fn opens_object(token: &Token) -> bool
    ensures { result ≡ spec.opens_object token.now }
{
    matches!(
        token,
        Token::Sign(Sign::Dot) | Token::Sign(Sign::OpenBracket)
    )
}

fn is_repository(greatest: u8, token: &Token) -> bool
    ensures { result ≡ spec.is_repository greatest token.now }
{
    match token {
        Token::Number(number) => *number >= 1 && *number <= greatest as u64,
        _ => true,
    }
}

fn is_object_number(token: &Token) -> bool
    ensures { result ≡ spec.is_object_number token.now }
{
    match token {
        Token::Number(number) => *number < 1 << 32,
        _ => true,
    }
}

fn pair_fits(greatest: u8, a: &Token, b: &Token) -> bool
    ensures { result ≡ spec.pair_fits greatest a.now b.now }
{
    (!opens_object(b) || is_repository(greatest, a)) && (!is_dot(a) || is_object_number(b))
}

fn next_fits(greatest: u8, token: &Token, more: &[Token]) -> bool
    ensures { result ≡ spec.next_fits greatest token.now more.now }
{
    match more.first() {
        Some(next) => pair_fits(greatest, token, next),
        None => true,
    }
}

// Whether the objects in the tokens are in range, with repositories up to the greatest.
pub fn objects_fit(greatest: u8, tokens: &[Token]) -> bool
    ensures { result ≡ spec.objects_fit greatest tokens.now }
{
    let mut rest = tokens;
    while let Some((token, more)) = rest.split_first() {
        if !next_fits(greatest, token, more) {
            return false;
        }
        rest = more;
    }
    true
}
