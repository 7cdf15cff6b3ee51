//! How tightly operators bind.
ghost use Rattle.std.specs.Prelude.{◌≡◌, ◌≤◌};
ghost use Rattle.expression_form.specs.Levels.{infix_level, left_level, prefix_level};
ghost use Rattle.expression_form.specs.Machine as spec;

use token_form::{Sign, Token, Word};
use value_form::{Infix, Prefix};

/// How tightly an operator between operands binds, from 0, the loosest.
pub fn level_of(operator: Infix) -> u8
    ensures value { result ≡ infix_level operator }
    ensures small { result ≤ 5 }
{
    match operator {
        Infix::Or => 0,
        Infix::And => 1,
        Infix::Equal
        | Infix::NotEqual
        | Infix::Less
        | Infix::LessEqual
        | Infix::Greater
        | Infix::GreaterEqual => 3,
        Infix::Add | Infix::Subtract | Infix::Join => 4,
        Infix::Multiply | Infix::Divide | Infix::Modulo => 5,
    }
}

/// The level that its left operand needs.
pub fn left_of(operator: Infix) -> u8
    ensures { result ≡ left_level operator }
{
    match operator {
        Infix::Or => 0,
        Infix::And => 1,
        Infix::Equal
        | Infix::NotEqual
        | Infix::Less
        | Infix::LessEqual
        | Infix::Greater
        | Infix::GreaterEqual => 4,
        Infix::Add | Infix::Subtract | Infix::Join => 4,
        Infix::Multiply | Infix::Divide | Infix::Modulo => 5,
    }
}

/// How tightly an operator before its operand binds.
pub fn level_before(operator: Prefix) -> u8
    ensures { result ≡ prefix_level operator }
{
    match operator {
        Prefix::Not => 2,
        Prefix::Minus => 6,
    }
}

/// The operator between operands that a token is.
pub fn infix_of(token: &Token) -> Option<Infix>
    ensures { result ≡ spec.infix_of token.now }
{
    match token {
        Token::Word(Word::Or) => Some(Infix::Or),
        Token::Word(Word::And) => Some(Infix::And),
        Token::Word(Word::Mod) => Some(Infix::Modulo),
        Token::Sign(Sign::Equal) => Some(Infix::Equal),
        Token::Sign(Sign::NotEqual) => Some(Infix::NotEqual),
        Token::Sign(Sign::Less) => Some(Infix::Less),
        Token::Sign(Sign::LessEqual) => Some(Infix::LessEqual),
        Token::Sign(Sign::Greater) => Some(Infix::Greater),
        Token::Sign(Sign::GreaterEqual) => Some(Infix::GreaterEqual),
        Token::Sign(Sign::Plus) => Some(Infix::Add),
        Token::Sign(Sign::Minus) => Some(Infix::Subtract),
        Token::Sign(Sign::Ampersand) => Some(Infix::Join),
        Token::Sign(Sign::Star) => Some(Infix::Multiply),
        Token::Sign(Sign::Slash) => Some(Infix::Divide),
        _ => None,
    }
}
