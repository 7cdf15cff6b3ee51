//! The lines of a session that aren't a plan's.
ghost use Rattle.std.specs.Prelude.{◌≡◌, ◌↔◌, IsTrue};
ghost use Rattle.std.specs.Str.Lines.{strip_carriage_return};
ghost use Rattle.session_form.specs.Sessions as sessions;

/// The line without the 0D at its end.
pub fn stripped(line: &[u8]) -> &[u8]
    ensures { result.now ≡ strip_carriage_return line.now }
{
    match line.strip_suffix(b"\r") {
        Some(front) => front,
        None => line,
    }
}

/// Whether a line, without its end, ends a batch.
pub fn is_go(line: &[u8]) -> bool
    ensures { IsTrue result ↔ sessions.IsGo line.now }
{
    stripped(line) == b"go".as_slice()
}

/// Whether a line, without its end, is a session's first.
pub fn is_title(line: &[u8]) -> bool
    ensures { IsTrue result ↔ sessions.IsTitle line.now }
{
    stripped(line) == b"swallow session 1".as_slice()
}
