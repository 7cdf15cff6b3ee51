//! Reads the object that a row names.
ghost use Rattle.std.specs.Prelude.{◌≡◌, ◌≤◌, ◌∷◌, ℕ, List, length, MatchOption};
ghost use Rattle.std.specs.Option.{option_map};
ghost use Rattle.token_form.specs.declared.tokens.Token.{Token};
ghost use Rattle.script_form.specs.Targets as spec;

use token_form::{Sign, Token};
use value_form::{Bytes, ObjectId};

/// The name at the front, and what is behind it.
pub fn name_of(tokens: &[Token]) -> Option<(&Bytes, &[Token])>
    ensures { MatchOption result ((name : List ℕ) (rest : List Token) → tokens.now ≡ Token.Name name ∷ rest → ⊥)
        (λ p. tokens.now ≡ Token.Name p.0.now ∷ p.1.now) }
{
    match tokens.split_first() {
        Some((Token::Name(name), rest)) => Some((name, rest)),
        _ => None,
    }
}

/// What is behind an `=` at the front.
pub fn behind_equal(tokens: &[Token]) -> Option<&[Token]>
    ensures { MatchOption result ((rest : List Token) → tokens.now ≡ Token.Sign Sign.Equal ∷ rest → ⊥)
        (λ rest. tokens.now ≡ Token.Sign Sign.Equal ∷ rest.now) }
{
    match tokens.split_first() {
        Some((Token::Sign(Sign::Equal), rest)) => Some(rest),
        _ => None,
    }
}

/// The number of a repository, from 1 to 16.
fn is_repository(number: u64) -> bool
    ensures { result ≡ spec.is_repository number }
{
    number >= 1 && number <= 16
}

/// An object `R.N` at the front, and what is behind it.
pub fn fixed_of(tokens: &[Token]) -> Option<(ObjectId, &[Token])>
    ensures { option_map (λ p. (p.0, p.1.now)) result ≡ spec.fixed_of tokens.now }
{
    match tokens {
        [
            Token::Number(repository),
            Token::Sign(Sign::Dot),
            Token::Number(number),
            ..
        ] => {
            if is_repository(*repository) && *number < 4_294_967_296 {
                let object = ObjectId {
                    repository: *repository as u8,
                    number: *number as u32,
                };
                Some((object, &tokens[3..]))
            } else {
                None
            }
        }
        _ => None,
    }
}

/// The number of tokens before the first `]`.
fn bracket_at(tokens: &[Token]) -> usize
    ensures value { result ≡ spec.bracket_at tokens.now }
    ensures bound { result ≤ length tokens.now }
{
    let mut at = 0;
    'brackets: for token in tokens {
        if let Token::Sign(Sign::CloseBracket) = token {
            return at;
        }
        at += 1;
    }
    at
}

/// An object `R[..]` at the front: R, the tokens between the brackets, and what is behind them.
pub fn indexed_of(tokens: &[Token]) -> Option<(u8, &[Token], &[Token])>
    ensures { option_map (λ p. (p.0, p.1.now, p.2.now)) result ≡ spec.indexed_of tokens.now }
{
    match tokens {
        [
            Token::Number(repository),
            Token::Sign(Sign::OpenBracket),
            ..
        ] => {
            let rest = &tokens[2..];
            let at = bracket_at(rest);
            if is_repository(*repository) && at < rest.len() {
                Some((*repository as u8, &rest[..at], &rest[at + 1..]))
            } else {
                None
            }
        }
        _ => None,
    }
}
