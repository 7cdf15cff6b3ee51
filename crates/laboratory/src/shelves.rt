//! The media of a run in the laboratory.
ghost use Rattle.std.specs.Prelude.{◌≡◌, ◌≤◌, false, IfOk};
ghost use Rattle.medium_port.specs.MemoryMedia.{failed_in};
ghost use Rattle.laboratory.specs.Shelves.{HasPut, IsFresh, IsLabShelf, stops_at};

use crate::options::Lab;
use medium_port::{MemoryMedium, MemoryShelf, Stop, StopAt};
use pseudo_time::NodeKind;
use std::alloc::{AllocError, Global};

// The stop at the gate of a page. 0 is none.
fn stops_for(alloc: Global, page: u32) -> Result<Vec<Stop>, AllocError>
    ensures { IfOk result (λ stops. stops.items ≡ stops_at page) }
{
    let mut stops = Vec::new(alloc);
    if page != 0 {
        stops.push(Stop {
            at: StopAt::Write { page, at: 0 },
            keep: 0,
            fill: 0,
        })?;
    }
    Ok(stops)
}

// A blank medium of as many pages as is said, which stops where it is said.
fn medium_for(alloc: Global, lab: &Lab) -> Result<MemoryMedium, AllocError>
    requires some { 1 ≤ lab.now.pages }
    requires most { lab.now.pages ≤ 1048576 }
    ensures { IfOk result (IsFresh lab.now.pages (stops_at lab.now.stop)) }
{
    let stops = stops_for(alloc, lab.stop)?;
    MemoryMedium::new(alloc, lab.pages, stops)
}

// The shelf with a medium of repository 1 more.
fn put(shelf: MemoryShelf, volume: u32, medium: MemoryMedium) -> Result<MemoryShelf, AllocError>
    requires { failed_in medium ≡ false }
    ensures { IfOk result (λ s. HasPut shelf s volume medium) }
{
    let mut shelf = shelf;
    match shelf.put(NodeKind::Repository, 1, volume, medium) {
        Ok(()) => Ok(shelf),
        Err(_) => Err(AllocError),
    }
}

/// A shelf of blank media of as many pages as is said, of which two of repository 1 stop where it is said:
/// its volume 0, and that on which it votes.
pub fn shelf_for(alloc: Global, lab: &Lab) -> Result<MemoryShelf, AllocError>
    requires some { 1 ≤ lab.now.pages }
    requires most { lab.now.pages ≤ 1048576 }
    ensures { IfOk result (IsLabShelf lab.now) }
{
    let first = medium_for(alloc, lab)?;
    let voting = medium_for(alloc, lab)?;
    let one = put(MemoryShelf::new(alloc, lab.pages), 0, first)?;
    let both = put(one, 1_010, voting)?;
    Ok(both)
}
