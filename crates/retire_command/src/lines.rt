//! The lines that tell of a retirement.
ghost use Rattle.std.specs.Prelude.{◌≡◌, IfOk};
ghost use Rattle.retire_command.specs.Lines as lines;

use pseudo_time::PseudoTime;
use report_writer::{push_named, push_time};
use std::alloc::{AllocError, Global};
use value_form::Bytes;

/// The line of a repository that was retired into a volume.
pub fn retired_line(
    alloc: Global,
    repository: u8,
    volume: usize,
    mark: PseudoTime,
    kept: usize,
    dropped: usize,
) -> Result<Bytes, AllocError>
    ensures { IfOk result (λ text. text ≡ lines.retired_line repository volume mark kept dropped) }
{
    let mut text = Vec::new(alloc);
    push_named(alloc, &mut text, b"retired repository ", repository as u64)?;
    push_named(alloc, &mut text, b" volume ", volume as u64)?;
    text.extend_from_slice(b" mark ")?;
    push_time(alloc, &mut text, mark)?;
    push_named(alloc, &mut text, b" kept ", kept as u64)?;
    push_named(alloc, &mut text, b" dropped ", dropped as u64)?;
    text.push(b'\n')?;
    Ok(Bytes::of(text))
}

/// The line of a mark that isn't above the floor.
pub fn old_mark_line(alloc: Global, floor: PseudoTime) -> Result<Bytes, AllocError>
    ensures { IfOk result (λ text. text ≡ lines.old_mark_line floor) }
{
    let mut text = Vec::new(alloc);
    text.extend_from_slice(b"swallow: old mark ")?;
    push_time(alloc, &mut text, floor)?;
    text.push(b'\n')?;
    Ok(Bytes::of(text))
}

/// The line where no volume is fresh.
pub fn last_volume_line(alloc: Global) -> Result<Bytes, AllocError>
    ensures { IfOk result (λ text. text ≡ lines.last_volume_line) }
{
    let mut text = Vec::new(alloc);
    text.extend_from_slice(b"swallow: last volume\n")?;
    Ok(Bytes::of(text))
}
