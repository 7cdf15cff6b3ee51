//! The text of a snapshot.
ghost use Rattle.std.specs.Prelude.{◌≡◌, ◌≤◌, ◌++◌, List, IfOk, IfErr, OnOk, length};
ghost use Rattle.std.specs.List.{flat_map};
ghost use Rattle.value_form.specs.declared.values.Value.{Value};
ghost use Rattle.commit_watch.specs.declared.moved.Moved.{Moved};
ghost use Rattle.snapshot_command.specs.Snapshots.{AreParts, IsRefusal, IsSnapshot};
ghost use Rattle.snapshot_command.specs.Texts as lines;

use archive_store::{AsOfFault, Known, asof_among};
use pseudo_time::PseudoTime;
use std::alloc::{AllocError, Global};
use value_form::Bytes;
use watch_command::{push_mark, push_values};

// Appends the first line.
fn push_head(alloc: Global, out: &mut Vec<u8>, mark: PseudoTime) -> Result<(), AllocError>
    ensures { OnOk result (out.new.items ≡ out.old.items ++ lines.snapshot_head mark) }
{
    out.extend_from_slice(b"snapshot")?;
    push_mark(alloc, out, mark)?;
    Ok(())
}

// Appends the lines of the objects, repository after repository.
fn push_parts(
    alloc: Global,
    out: &mut Vec<u8>,
    known: &[Known],
    mark: PseudoTime,
) -> Result<(), AsOfFault>
    requires few { length known.now ≤ 16 }
    ensures ok { OnOk result ((lists : List (List (Moved Value))) × (length lists ≡ length known.now) ×
        AreParts known.now mark lists × (out.new.items ≡ out.old.items ++ flat_map lines.value_lines lists)) }
    ensures err { IfErr result (IsRefusal known.now mark) }
{
    for place in 0..known.len() {
        let list = match asof_among(alloc, known, (place + 1) as u8, mark) {
            Ok(list) => list,
            Err(fault) => return Err(fault),
        };
        push_values(alloc, out, list.as_slice())?;
    }
    Ok(())
}

/// The text of the map of all repositories as of the mark, by their archives and the homes.
pub fn snapshot_text(alloc: Global, known: &[Known], mark: PseudoTime) -> Result<Bytes, AsOfFault>
    requires few { length known.now ≤ 16 }
    ensures ok { IfOk result (IsSnapshot known.now mark) }
    ensures err { IfErr result (IsRefusal known.now mark) }
{
    let mut out = Vec::new(alloc);
    push_head(alloc, &mut out, mark)?;
    push_parts(alloc, &mut out, known, mark)?;
    Ok(Bytes::of(out))
}

/// The line that says that no clock is above those of the archives.
pub fn last_clock_line(alloc: Global) -> Result<Bytes, AllocError>
    ensures { IfOk result (λ line. line ≡ lines.last_clock_line) }
{
    let mut out = Vec::new(alloc);
    out.extend_from_slice(b"swallow: last clock\n")?;
    Ok(Bytes::of(out))
}
