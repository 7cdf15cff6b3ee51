//! Runs of letters, digits and spaces.
ghost use Rattle.std.specs.Prelude.{◌≡◌, ◌+◌, length};
ghost use Rattle.token_form.specs.Tokens as tokens;
ghost use Rattle.token_form.specs.Reading.{passes, front_of, rest_of};

// The bytes that may stand in a row.
#[derive(Clone, Copy, Debug, PartialEq, Eq)]
pub enum Run {
    Spaces,
    Digits,
    // Letters, digits and `_`.
    NameBytes,
}

// `a` to `z`
pub fn is_letter(byte: u8) -> bool
    ensures { result ≡ tokens.is_letter byte }
{
    (b'a'..=b'z').contains(&byte)
}

fn is_in(run: Run, byte: u8) -> bool
    ensures { result ≡ passes run byte }
{
    match run {
        Run::Spaces => byte == b' ',
        Run::Digits => byte.is_ascii_digit(),
        Run::NameBytes => is_letter(byte) || byte.is_ascii_digit() || byte == b'_',
    }
}

// The bytes of this kind at the front, as many as there are, and what follows.
pub fn split_run(run: Run, bytes: &[u8]) -> (&[u8], &[u8])
    ensures front { result.0.now ≡ front_of (passes run) bytes.now }
    ensures rest { result.1.now ≡ rest_of (passes run) bytes.now }
    ensures whole { length result.0.now + length result.1.now ≡ length bytes.now }
{
    for (at, byte) in bytes.iter().enumerate() {
        if !is_in(run, *byte) {
            return bytes.split_at(at);
        }
    }
    bytes.split_at(bytes.len())
}
