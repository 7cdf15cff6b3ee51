//! Splits a text into lines.
ghost use Rattle.std.specs.Prelude.{◌≡◌, ◌≢◌, ◌<◌, [], ◌∷◌, length};
ghost use Rattle.std.specs.Str.Lines.{strip_carriage_return};
ghost use Rattle.script_form.specs.Lines as spec;

// A line without the 0D directly before its end.
fn without_return(line: &[u8]) -> &[u8]
    ensures { result.now ≡ strip_carriage_return line.now }
{
    let size = line.len();
    if size > 0 && line[size - 1] == b'\r' {
        &line[..size - 1]
    } else {
        line
    }
}

/// The first line without its end, and what follows its end.
pub fn first_line(bytes: &[u8]) -> (&[u8], &[u8])
    requires { bytes.now ≢ [] }
    ensures first { spec.lines bytes.now ≡ result.0.now ∷ spec.lines result.1.now }
    ensures shorter { length result.1.now < length bytes.now }
{
    for (at, byte) in bytes.iter().enumerate() {
        if *byte == b'\n' {
            return (without_return(&bytes[..at]), &bytes[at + 1..]);
        }
    }
    (bytes, &bytes[bytes.len()..])
}

/// Whether the line is no statement: spaces alone, or spaces and then `#`.
pub fn is_blank(line: &[u8]) -> bool
    ensures { result ≡ spec.is_blank line.now }
{
    for byte in line {
        if *byte != b' ' {
            return *byte == b'#';
        }
    }
    true
}
