//! The history of an object.
ghost use Rattle.std.specs.Prelude.{◌⊎◌};
ghost use Rattle.plan_volumes.specs.Shelves.{shelf_sight};
ghost use Rattle.swallow_top.specs.Histories.{AskedNothing, TellsHistory, TellsVolumes};
ghost use Rattle.run_command.specs.Written.{sinking};

use medium_port::{Medium, Shelf};
use plan_volumes::{
    Kept, Opening, Standing, give_back, keep_volumes, node_log, open_volumes, stand_of,
};
use pseudo_time::NodeId;
use report_writer::{down_line, history};
use run_command::tell_text;
use std::alloc::Global;
use stream_port::Sink;
use value_form::ObjectId;

// Writes the history of the object by the log of its repository, or why that can't be opened. The answer
// is the status.
fn tell_volumes<O: Sink, M: Medium>(
    alloc: Global,
    object: ObjectId,
    openings: &[Opening<M>],
    sink: &mut O,
) -> u8
    ensures { TellsVolumes object openings.now result
        (sinking (O.taken sink.old) (O.taken sink.new) (O.faults sink.old) (O.faults sink.new)) }
{
    match stand_of(openings) {
        Standing::Open => tell_text(history(alloc, object, node_log(openings)), 0, sink),
        Standing::Shut(cause) => {
            let node = NodeId::repository(object.repository);
            tell_text(down_line(alloc, node, cause), 6, sink)
        }
        Standing::Wanting => 7,
    }
}

/// Opens the volumes of the object's repository, and writes the object's history by the log of the current
/// one. The answer is the status, and the media that were taken, in the order of the volumes.
pub fn tell_history<O: Sink, S: Shelf>(
    alloc: Global,
    object: ObjectId,
    sink: &mut O,
    shelf: &mut S,
) -> (u8, Vec<Kept<S::Medium>>)
    ensures { AskedNothing S.Medium.Medium (shelf_sight S.Shelf shelf.old)
        (shelf_sight S.Shelf shelf.new) result.1.items
        (sinking (O.taken sink.old) (O.taken sink.new) (O.faults sink.old) (O.faults sink.new)) result.0
        ⊎ TellsHistory S.Medium.Medium (shelf_sight S.Shelf shelf.old)
        (shelf_sight S.Shelf shelf.new) object result.1.items
        (sinking (O.taken sink.old) (O.taken sink.new) (O.faults sink.old) (O.faults sink.new)) result.0 }
{
    let Ok(room) = Vec::with_capacity(alloc, 1_000) else {
        return (7, Vec::new(alloc));
    };
    let Ok(places) = Vec::with_capacity(alloc, 1_000) else {
        return (7, Vec::new(alloc));
    };
    let Ok(kept) = Vec::with_capacity(alloc, 1_000) else {
        return (7, Vec::new(alloc));
    };
    let node = NodeId::repository(object.repository);
    let openings = open_volumes(alloc, shelf, node, room);
    let status = tell_volumes(alloc, object, openings.as_slice(), sink);
    (
        status,
        keep_volumes(node, give_back(places, openings), kept),
    )
}
