//! The volumes of all nodes are taken, opened and handed back, and their logs are read.
ghost use Rattle.std.specs.Prelude.{◌≡◌, ◌≤◌, ◌<◌, ◌+◌, [], length, vec_len, vec_capacity};
ghost use Rattle.snapshot_command.specs.Nodes as nodes;
ghost use Rattle.snapshot_command.specs.Shelves.{shelf_sight};
ghost use Rattle.replay_command.specs.Nodes as spec;

use crate::logs::{NodeLog, node_log};
use medium_port::{Medium, Shelf};
use pseudo_time::NodeId;
use report_writer::down_line;
use snapshot_command::{
    Kept, Opening, Outcome, Standing, fallen, give_back, keep_volumes, open_volumes, stand_of,
};
use std::alloc::Global;

// How many repositories a folder has, and how many brokers.
const MOST: u8 = 16;

/// The node in this place: repositories 1 to 16, then brokers 1 to 16.
pub fn node_at(place: u8) -> NodeId
    requires { place < 32 }
    ensures { result ≡ spec.node_at place }
{
    if place < MOST {
        NodeId::repository(place + 1)
    } else {
        NodeId::broker(place - MOST + 1)
    }
}

// The log of a node with these volumes, or what stops it.
fn log_of<M: Medium>(
    alloc: Global,
    node: NodeId,
    openings: &[Opening<M>],
) -> Result<NodeLog, Outcome>
    requires few { length openings.now ≤ 1000 }
    ensures { nodes.Reads spec.node_log node openings.now result }
{
    match stand_of(openings) {
        Standing::Shut(cause) => Err(fallen(down_line(alloc, node, cause))),
        Standing::Wanting => Err(Outcome::NoMemory),
        Standing::Open => match node_log(alloc, openings) {
            Ok(log) => Ok(log),
            Err(_) => Err(Outcome::NoMemory),
        },
    }
}

// Takes the volumes of a node and reads its log. They are kept behind others, for which the list has room.
fn take_node<S: Shelf>(
    alloc: Global,
    shelf: &mut S,
    node: NodeId,
    kept: Vec<Kept<S::Medium>>,
) -> (Result<NodeLog, Outcome>, Vec<Kept<S::Medium>>)
    requires room { vec_len kept + 1000 ≤ vec_capacity kept }
    ensures took { nodes.Takes spec.node_log S.Medium.Medium (shelf_sight S.Shelf shelf.old)
        (shelf_sight S.Shelf shelf.new) node kept.items result.1.items result.0 }
    ensures room { vec_capacity result.1 ≡ vec_capacity kept }
    ensures few { vec_len result.1 ≤ vec_len kept + 1000 }
{
    let Ok(room) = Vec::with_capacity(alloc, 1_000) else {
        return (Err(Outcome::NoMemory), kept);
    };
    let Ok(places) = Vec::with_capacity(alloc, 1_000) else {
        return (Err(Outcome::NoMemory), kept);
    };
    let openings = open_volumes(alloc, shelf, node, room);
    let log = log_of(alloc, node, openings.as_slice());
    (log, keep_volumes(node, give_back(places, openings), kept))
}

/// Takes the volumes of repositories 1 to 16 and of brokers 1 to 16, and reads their logs, up to the first node that
/// can't be read. The empty list has room for the volumes.
pub fn gather<S: Shelf>(
    alloc: Global,
    shelf: &mut S,
    kept: Vec<Kept<S::Medium>>,
) -> (Result<Vec<NodeLog>, Outcome>, Vec<Kept<S::Medium>>)
    requires empty { kept.items ≡ [] }
    requires room { 32000 ≤ vec_capacity kept }
    ensures { spec.Gathers S.Medium.Medium (shelf_sight S.Shelf shelf.old) (shelf_sight S.Shelf shelf.new)
        result.1.items result.0 }
{
    let mut kept = kept;
    let mut logs = Vec::new(alloc);
    for place in 0..32u8 {
        let (read, more) = take_node(alloc, shelf, node_at(place), kept);
        kept = more;
        match read {
            Ok(log) => {
                let Ok(()) = logs.push(log) else {
                    return (Err(Outcome::NoMemory), kept);
                };
            }
            Err(outcome) => return (Err(outcome), kept),
        }
    }
    (Ok(logs), kept)
}
