//! The token at the front of a line.
ghost use Rattle.std.specs.Prelude.{◌≡◌, ◌<◌, ◌≤◌, IfOk, IfSome, MatchOption, None, Some, length};
ghost use Rattle.std.specs.Char.{is_ascii_digit};
ghost use Rattle.token_form.specs.Tokens.{AllPass, is_name_byte, number_from};
ghost use Rattle.token_form.specs.Reading as reading;
ghost use Rattle.token_form.specs.Reading.{Starts};

use crate::byte_runs::{Run, is_letter, split_run};
use crate::numbers::number_of;
use crate::quotes::text_at;
use crate::signs::sign_at;
use crate::tokens::Token;
use crate::words::word_of;
use std::alloc::{AllocError, Global};
use value_form::Bytes;

const MOST_NAME_BYTES: usize = 16;

// The most bytes of a text that stands in a script. A text that a script makes may be longer.
const MOST_QUOTED_BYTES: usize = 1_000;

fn name_token(alloc: Global, name: &[u8]) -> Result<Option<Token>, AllocError>
    ensures { IfOk result (λ o. o ≡ reading.kept (reading.name_token name.now)) }
{
    if let Some(word) = word_of(name) {
        return Ok(Some(Token::Word(word)));
    }
    if name.len() > MOST_NAME_BYTES {
        return Ok(None);
    }
    let name = name.to_vec(alloc)?;
    Ok(Some(Token::Name(Bytes::of(name))))
}

fn number_token(digits: &[u8]) -> Option<Token>
    requires { AllPass is_ascii_digit digits.now }
    ensures { result ≡ reading.kept (Token.Number (number_from 0 digits.now)) }
{
    let Some(number) = number_of(digits) else {
        return None;
    };
    Some(Token::Number(number))
}

fn text_token(content: Bytes) -> Option<Token>
    ensures { result ≡ reading.kept (Token.Text content) }
{
    if content.as_slice().len() > MOST_QUOTED_BYTES {
        return None;
    }
    Some(Token::Text(content))
}

fn read_name(alloc: Global, bytes: &[u8]) -> Result<(Option<Token>, &[u8]), AllocError>
    requires { Starts is_name_byte bytes.now }
    ensures token { IfOk result (λ found. found.0 ≡ reading.kept
        (reading.name_token (reading.front_of is_name_byte bytes.now))) }
    ensures rest { IfOk result (λ found. found.1.now ≡ reading.rest_of is_name_byte bytes.now) }
    ensures shorter { IfOk result (λ found. length found.1.now < length bytes.now) }
{
    let (name, rest) = split_run(Run::NameBytes, bytes);
    let token = name_token(alloc, name)?;
    Ok((token, rest))
}

fn read_number(bytes: &[u8]) -> (Option<Token>, &[u8])
    requires { Starts is_ascii_digit bytes.now }
    ensures token { result.0 ≡ reading.kept (Token.Number (number_from 0 (reading.front_of is_ascii_digit bytes.now))) }
    ensures rest { result.1.now ≡ reading.rest_of is_ascii_digit bytes.now }
    ensures shorter { length result.1.now < length bytes.now }
{
    let (digits, rest) = split_run(Run::Digits, bytes);
    (number_token(digits), rest)
}

fn read_text(alloc: Global, after: &[u8]) -> Result<Option<(Option<Token>, &[u8])>, AllocError>
    ensures found { IfOk result (λ o. MatchOption o (reading.text_at after.now ≡ None)
        (λ found. reading.read_then (reading.text_at after.now) ≡ Some (found.0, found.1.now))) }
    ensures shorter { IfOk result (λ o. IfSome o (λ found. length found.1.now ≤ length after.now)) }
{
    let Some((content, rest)) = text_at(alloc, after)? else {
        return Ok(None);
    };
    Ok(Some((text_token(content), rest)))
}

fn read_sign(first: u8, after: &[u8]) -> Option<(Option<Token>, &[u8])>
    ensures found { MatchOption result (reading.sign_token first after.now ≡ None)
        (λ found. reading.read_then (reading.sign_token first after.now) ≡ Some (found.0, found.1.now)) }
    ensures shorter { IfSome result (λ found. length found.1.now ≤ length after.now) }
{
    let Some((sign, rest)) = sign_at(first, after) else {
        return None;
    };
    Some((Some(Token::Sign(sign)), rest))
}

// The longest token at the front, and what follows it. In place of a token that passes a limit
// stands None.
pub fn read_token(alloc: Global, bytes: &[u8]) -> Result<Option<(Option<Token>, &[u8])>, AllocError>
    ensures found { IfOk result (λ o. MatchOption o (reading.read_token bytes.now ≡ None)
        (λ found. reading.read_token bytes.now ≡ Some (found.0, found.1.now))) }
    ensures shorter { IfOk result (λ o. IfSome o (λ found. length found.1.now < length bytes.now)) }
{
    let Some((first, after)) = bytes.split_first() else {
        return Ok(None);
    };
    if is_letter(*first) {
        let found = read_name(alloc, bytes)?;
        return Ok(Some(found));
    }
    match *first {
        b'0' => Ok(Some((Some(Token::Number(0)), after))),
        b'1'..=b'9' => Ok(Some(read_number(bytes))),
        b'"' => read_text(alloc, after),
        other => Ok(read_sign(other, after)),
    }
}
