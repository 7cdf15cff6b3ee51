//! Quoted texts and their escapes.
ghost use Rattle.std.specs.Prelude.{◌≡◌, ◌<◌, ◌≤◌, IfOk, MatchOption, None, Some, length, IfSome, [], true};
ghost use Rattle.token_form.specs.Reading as reading;

use std::alloc::{AllocError, Global};
use value_form::Bytes;

// Where in a text a byte stands.
#[derive(Clone, Copy, Debug, PartialEq, Eq)]
pub enum Spot {
    Plain,
    // Behind a backslash.
    Escape,
    // Behind `\x`, and behind its first digit of this value.
    HighDigit,
    LowDigit(u8),
}

// What a byte of a text is.
#[derive(Clone, Copy, Debug, PartialEq, Eq)]
pub enum Piece {
    // The quote at the end.
    Closes,
    // It has no place here.
    Refused,
    // A byte of an escape, and the next stands here.
    Goes(Spot),
    // It gives this byte of the content, and the next is plain.
    Gives(u8),
}

// The value of a lower-case hexadecimal digit.
fn hex_value(byte: u8) -> Option<u8>
    ensures value { result ≡ reading.hex_value byte }
    ensures small { IfSome result (λ digit. digit < 16) }
{
    match byte {
        b'0'..=b'9' => Some(byte - b'0'),
        b'a'..=b'f' => Some(byte - b'a' + 10),
        _ => None,
    }
}

fn plain_piece(byte: u8) -> Piece
    ensures { result ≡ reading.plain_piece byte }
{
    match byte {
        b'"' => Piece::Closes,
        b'\\' => Piece::Goes(Spot::Escape),
        b' '..=b'~' => Piece::Gives(byte),
        _ => Piece::Refused,
    }
}

fn escape_piece(byte: u8) -> Piece
    ensures { result ≡ reading.escape_piece byte }
{
    match byte {
        b'"' => Piece::Gives(b'"'),
        b'\\' => Piece::Gives(b'\\'),
        b'n' => Piece::Gives(b'\n'),
        b'x' => Piece::Goes(Spot::HighDigit),
        _ => Piece::Refused,
    }
}

fn piece_of(spot: Spot, byte: u8) -> Piece
    requires { reading.is_spot spot ≡ true }
    ensures value { result ≡ reading.piece_at spot byte }
    ensures next { reading.leads_on result ≡ true }
{
    match spot {
        Spot::Plain => plain_piece(byte),
        Spot::Escape => escape_piece(byte),
        Spot::HighDigit => match hex_value(byte) {
            Some(high) => Piece::Goes(Spot::LowDigit(high)),
            None => Piece::Refused,
        },
        Spot::LowDigit(high) => match hex_value(byte) {
            Some(low) => Piece::Gives(16 * high + low),
            None => Piece::Refused,
        },
    }
}

// The content of a text whose opening quote stands before these bytes, and what follows its
// closing quote. None where no text stands there.
pub fn text_at(alloc: Global, bytes: &[u8]) -> Result<Option<(Bytes, &[u8])>, AllocError>
    ensures found { IfOk result (λ o. MatchOption o (reading.inside Spot.Plain [] bytes.now ≡ None)
        (λ found. reading.inside Spot.Plain [] bytes.now ≡ Some (found.0, found.1.now))) }
    ensures shorter { IfOk result (λ o. IfSome o (λ found. length found.1.now ≤ length bytes.now)) }
{
    let mut content = Vec::new(alloc);
    let mut spot = Spot::Plain;
    for (at, byte) in bytes.iter().enumerate() {
        match piece_of(spot, *byte) {
            Piece::Closes => return Ok(Some((Bytes::of(content), &bytes[at + 1..]))),
            Piece::Refused => return Ok(None),
            Piece::Goes(next) => spot = next,
            Piece::Gives(given) => {
                content.push(given)?;
                spot = Spot::Plain;
            }
        }
    }
    Ok(None)
}
