//! Values: nothing, a number or a text.
ghost use Rattle.std.specs.Prelude.{◌≡◌, ◌<◌, ◌++◌, OnOk, OnErr, IfOk};
ghost use Rattle.value_form.specs.TextForm.{hex_digit_of, byte_text, quoted_text};

use crate::texts::Bytes;
use std::alloc::{AllocError, Global};

// A lower-case hexadecimal digit.
fn hex_digit(digit: u8) -> u8
    requires { digit < 16 }
    ensures { result ≡ hex_digit_of digit }
{
    if digit < 10 {
        b'0' + digit
    } else {
        b'a' + (digit - 10)
    }
}

// Appends what a byte of a text is printed as.
fn push_byte(out: &mut Vec<u8>, byte: u8) -> Result<(), AllocError>
    ensures { OnOk result (out.new.items ≡ out.old.items ++ byte_text byte) }
{
    match byte {
        b'"' => out.extend_from_slice(b"\\\""),
        b'\\' => out.extend_from_slice(b"\\\\"),
        b'\n' => out.extend_from_slice(b"\\n"),
        b' '..=b'~' => out.extend_from_slice(&[byte]),
        _ => out.extend_from_slice(&[b'\\', b'x', hex_digit(byte / 16), hex_digit(byte % 16)]),
    }
}

// The text between double quotes.
fn quoted(alloc: Global, bytes: &[u8]) -> Result<Vec<u8>, AllocError>
    ensures { IfOk result (λ v. v.items ≡ quoted_text bytes.now) }
{
    let mut text = Vec::new(alloc);
    text.push(b'"')?;
    for byte in bytes {
        push_byte(&mut text, *byte)?;
    }
    text.push(b'"')?;
    Ok(text)
}

/// What an object or a name holds.
#[derive(Debug, Drop, PartialEq, Eq)]
pub enum Value {
    /// What an object holds that was never written, and a name that was never set.
    Nothing,
    Number(i64),
    /// At most 65,536 bytes.
    Text(Bytes),
}

impl Value {
    ghost use Rattle.value_form.specs.ValueText.{value_text};

    /// Appends the printed text. Where memory runs out, `out` is as before.
    pub fn print(&self, alloc: Global, out: &mut Vec<u8>) -> Result<(), AllocError>
        ensures ok { OnOk result (out.new.items ≡ out.old.items ++ value_text self.now) }
        ensures err { OnErr result (out.new.items ≡ out.old.items) }
    {
        match self {
            Value::Nothing => out.extend_from_slice(b"nothing"),
            Value::Number(number) => {
                let digits = number.to_string(alloc)?;
                out.extend_from_slice(digits.as_bytes())
            }
            Value::Text(bytes) => {
                let text = quoted(alloc, bytes.as_slice())?;
                out.extend_from_slice(text.as_slice())
            }
        }
    }

    /// An equal value.
    pub fn copy(&self, alloc: Global) -> Result<Value, AllocError>
        ensures { IfOk result (λ v. v ≡ self.now) }
    {
        match self {
            Value::Nothing => Ok(Value::Nothing),
            Value::Number(number) => Ok(Value::Number(*number)),
            Value::Text(bytes) => {
                let copied = bytes.copy(alloc)?;
                Ok(Value::Text(copied))
            }
        }
    }
}
