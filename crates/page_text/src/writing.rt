//! Appends bytes as text of an element or of an attribute.
ghost use Rattle.std.specs.Prelude.{◌≡◌, ◌<◌, ◌++◌, OnOk};
ghost use Rattle.std.specs.List.{flat_map};
ghost use Rattle.page_text.specs.Escapes.{attribute_byte, attribute_text, hex_digit, other_byte, page_text, text_byte};

use std::alloc::AllocError;

// A lower-case hexadecimal digit.
fn hex(digit: u8) -> u8
    requires { digit < 16 }
    ensures { result ≡ hex_digit digit }
{
    if digit < 10 {
        b'0' + digit
    } else {
        b'a' + (digit - 10)
    }
}

// Appends a byte that isn't printable: a backslash, `x`, and two digits.
fn push_other(out: &mut Vec<u8>, byte: u8) -> Result<(), AllocError>
    ensures { OnOk result (out.new.items ≡ out.old.items ++ other_byte byte) }
{
    out.extend_from_slice(b"&#92;x")?;
    out.extend_from_slice(&[hex(byte / 16), hex(byte % 16)])
}

// Appends a byte of a text.
fn push_byte(out: &mut Vec<u8>, byte: u8) -> Result<(), AllocError>
    ensures { OnOk result (out.new.items ≡ out.old.items ++ text_byte byte) }
{
    match byte {
        b'&' => out.extend_from_slice(b"&#38;"),
        b'<' => out.extend_from_slice(b"&#60;"),
        b'>' => out.extend_from_slice(b"&#62;"),
        b'"' => out.extend_from_slice(b"&#34;"),
        b'\'' => out.extend_from_slice(b"&#39;"),
        b'\n' => out.extend_from_slice(&[byte]),
        b' '..=b'~' => out.extend_from_slice(&[byte]),
        _ => push_other(out, byte),
    }
}

// Appends a byte of an attribute.
fn push_attribute_byte(out: &mut Vec<u8>, byte: u8) -> Result<(), AllocError>
    ensures { OnOk result (out.new.items ≡ out.old.items ++ attribute_byte byte) }
{
    match byte {
        b'\n' => out.extend_from_slice(b"&#10;"),
        _ => push_byte(out, byte),
    }
}

/// Appends bytes as the text of an element.
pub fn push_text(out: &mut Vec<u8>, bytes: &[u8]) -> Result<(), AllocError>
    ensures { OnOk result (out.new.items ≡ out.old.items ++ page_text bytes.now) }
{
    for byte in bytes {
        push_byte(out, *byte)?;
    }
    Ok(())
}

/// Appends bytes as an attribute's value, which stands between quotes.
pub fn push_attribute(out: &mut Vec<u8>, bytes: &[u8]) -> Result<(), AllocError>
    ensures { OnOk result (out.new.items ≡ out.old.items ++ attribute_text bytes.now) }
{
    for byte in bytes {
        push_attribute_byte(out, *byte)?;
    }
    Ok(())
}
